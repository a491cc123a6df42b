//! What a client's reports say of the one log of a run.
#![tactic(auto)]

ghost use Rattle.group_model.specs.Reports.{ReportsFollow};

use client_msgs::requests_are_read_again;
use outcome_laws::one_log_laws;
use record_rules::rows_follow_asks;

/// The law that in every run within the rollback bound and without a collision the reports of a client that no ask
/// names follow the log. Stored: the client heard of its backup and later of its expose, and there the record stands
/// with all its tries. Recovered: the secret was earned, with the want's PIN. Any other report but Undecided is the
/// meaning of the log's reply at the place that the client heard of. It only names the laws below.
pub fn reports_follow()
    ensures { ReportsFollow }
{
    requests_are_read_again();
    rows_follow_asks();
    one_log_laws();
}
