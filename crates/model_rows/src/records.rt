//! What records read as: each fault, at its field, in its order.

ghost use Rattle.std.specs.Prelude.{true, false, [], ◌∷◌, ◌++◌, codes, replicate};
ghost use Rattle.values.specs.declared.event.Cause.TheVariants.{Word, Fields, NoBegin, SecondBegin, Number, Range, Hex, TooMany, Double, TooFew};
ghost use Rattle.model_rows.specs.Faults.{Faulty, Says, SaysMarked, IsRemark, Holds};
ghost use Rattle.values.specs.declared.event.Event.TheVariants as event;

/// An unknown first field, and an unknown third field of a want.
pub fn words()
    ensures unknown { Faulty true "tock,1" Word 1 }
    ensures nothing { Faulty true "\"\"" Word 1 }
    ensures driven_alone { Faulty true "again,00000000000000000000000000000001" Word 1 }
    ensures unknown_want { Faulty true "want,00000000000000000000000000000001,keep" Word 3 }
    ensures unknown_want_of_many { Faulty true "want,x,keep,1,2,3,4" Word 3 }
{}

/// A wrong number of fields comes before where the record stands.
pub fn counts()
    ensures short { Faulty true "tick" Fields 0 }
    ensures long { Faulty true "tick,1,2" Fields 0 }
    ensures short_want { Faulty true "want,00000000000000000000000000000001" Fields 0 }
    ensures short_begin { Faulty false "begin,0,100" Fields 0 }
    ensures second_begin { Faulty true "begin,0,100" Fields 0 }
{}

/// The begin record comes first, and once.
pub fn places()
    ensures no_begin { Faulty false "tick,x" NoBegin 0 }
    ensures settle { Faulty false "settle,0" NoBegin 0 }
    ensures second_begin { Faulty true "begin,x,y,z" SecondBegin 0 }
{}

/// A number is 0 or digits without a leading zero, of any length; then it is in range or not.
pub fn numbers()
    ensures letter { Faulty true "tick,x" Number 2 }
    ensures empty { Faulty true "tick," Number 2 }
    ensures leading_zero { Faulty true "tick,01" Number 2 }
    ensures line_feed { Faulty true "tick,\"1\n" Number 2 }
    ensures zero { Faulty true "tick,0" Range 2 }
    ensures above { Faulty true "tick,65536" Range 2 }
    ensures long { Faulty true "deliver,1000000000000000000000000" Range 2 }
    ensures no_message { Faulty true "lose,0" Range 2 }
    ensures much { Faulty true "settle,1000001" Range 2 }
    ensures state { Faulty true "roll,1,4294967296" Range 3 }
    ensures margin { Faulty true "margin,1,16" Range 3 }
    ensures first_of_two { Faulty true "join,0,x" Range 2 }
    ensures limit { Faulty false "begin,0,20001,1" Range 3 }
    ensures voter { Faulty false "begin,0,1,2,0" Range 5 }
{}

/// Hexadecimal has an even number of digits, and the length that is wanted.
pub fn digits()
    ensures client { Faulty true "say,01,1" Hex 2 }
    ensures odd { Faulty true "ask,1,00000000000000000000000000000001,1,220" Hex 5 }
    ensures letter { Faulty true "ask,1,00000000000000000000000000000001,1,2g" Hex 5 }
    ensures pin { Faulty true "want,00000000000000000000000000000001,recover,11" Hex 4 }
    ensures number_first { Faulty true "ask,1,00000000000000000000000000000001,x,2g" Number 4 }
{}

/// The voters of a begin record: too many, one twice, too few for the margin.
pub fn voters()
    ensures many { Faulty false "begin,0,100,1,2,3,4,5,6,7,8,9,10,11,12,13,14,15,16,17,18,19,20,21,22,23,24,25,26,27,28,29,30,31,32" TooMany 0 }
    ensures double { Faulty false "begin,2,100,7,8,7" Double 0 }
    ensures few { Faulty false "begin,1,100,1,2" TooFew 0 }
{}

/// A record without a fault is its event, and one whose first field begins with # is a remark.
pub fn events()
    ensures quoted { Says false "tick,\"1\"" (event.Tick 1) }
    ensures marked { SaysMarked "tick,1\r\n" (event.Tick 1) }
    ensures driven { Says true "again,00000000000000000000000000000001" (event.Again (record { 0 = replicate 15 0 ++ 1 ∷ [] })) }
    ensures greatest { Says false "deliver,18446744073709551615" (event.Deliver 18446744073709551615) }
    ensures upper_case { Says false "ask,7,000000000000000000000000000000AB,0,2Ac0" (event.Ask 7 (record { 0 = replicate 15 0 ++ 171 ∷ [] }) 0 (42 ∷ 192 ∷ [])) }
    ensures remark { IsRemark "#tick,1" }
    ensures quoted_remark { IsRemark "\"#\"" }
{}

/// A quoted field ends with its line, a carriage return ends a record, and an empty line has none.
pub fn cutting()
    ensures returned { Holds "tick,1\rtick,2\n\nsave" ((codes "tick" ∷ codes "1" ∷ []) ∷ (codes "tick" ∷ codes "2" ∷ []) ∷ (codes "save" ∷ []) ∷ []) }
    ensures unquoted { Holds "tick,\"1\n2\"" ((codes "tick" ∷ codes "1\n" ∷ []) ∷ (codes "2\"" ∷ []) ∷ []) }
{}
