//! A list of slots in pages.
ghost use Rattle.std.specs.Prelude.{◌≡◌, ◌<◌, ◌≤◌, [], ◌∷◌, ◌++◌, List, length, take, drop, insert, slice_index, slice_get, All, OnOk, OnErr, IfOk};
ghost use Rattle.std.specs.List.{concat};
ghost use Rattle.record_table.specs.Pages.{IsPage, page_at, place_of, IsSpot, HasRoom, halved};

use std::alloc::Global;
use std::marker::Model;
use values::{Memory, TryCopy};

/// The most slots of a page.
pub const PAGE: usize = 256;

/// What the lower page of a page that is split keeps.
const HALF: usize = PAGE / 2;

/// Where a slot may be added: before the one at an offset in a page, or at the end of the page.
/// Behind the last page it begins a page.
#[derive(Clone, Copy, Debug)]
pub struct Spot {
    pub page: usize,
    pub offset: usize,
}

/// A list of slots in pages, none of them empty, so that a slot that is added moves those of one
/// page alone. Contracts see the pages, which one after another are the list.
#[derive(Debug, Drop)]
pub struct Pages {
    pages: Vec<Vec<u16>>,
}

impl Model for Pages {
    ghost use Rattle.std.specs.Prelude.{ℕ, List, map, All};
    ghost use Rattle.record_table.specs.Pages.{IsPage};

    ghost Value = { List (List ℕ) };

    ghost view = { λ p. map (λ page. page.items) p.pages.items };

    ghost invariant = { λ p. All IsPage (map (λ page. page.items) p.pages.items) };
}

impl Pages {
    /// An empty list.
    pub fn new(alloc: Global) -> Pages
        ensures { result ≡ [] }
    {
        Pages {
            pages: Vec::new(alloc),
        }
    }

    /// How many pages there are.
    pub fn count(&self) -> usize
        ensures count { result ≡ length self.now }
        ensures pages { All IsPage self.now }
    {
        self.pages.len()
    }

    /// The slots of a page.
    pub fn page(&self, n: usize) -> &[u16]
        requires { n < length self.now }
        ensures page { result.now ≡ page_at self.now n }
        ensures some { 0 < length result.now }
    {
        self.pages[n].as_slice()
    }

    /// The first slot of a page.
    pub fn first(&self, n: usize) -> u16
        requires { n < length self.now }
        ensures { result ≡ slice_index (page_at self.now n) 0 }
    {
        self.page(n)[0]
    }

    /// The slot at a place of the list, or `None` exactly where the list ends before it.
    pub fn nth(&self, place: usize) -> Option<u16>
        ensures { result ≡ slice_get (concat self.now) place }
    {
        let mut left = place;
        for page in &self.pages {
            if left < page.len() {
                return Some(page[left]);
            }
            left -= page.len();
        }
        None
    }

    /// Adds a slot at a spot. After `Memory` the list is as before.
    pub fn insert(&mut self, spot: Spot, slot: u16) -> Result<(), Memory>
        requires { IsSpot self.old spot }
        ensures ok { OnOk result (concat self.new ≡ insert (concat self.old) (place_of self.old spot) slot) }
        ensures err { OnErr result (concat self.new ≡ concat self.old) }
    {
        if spot.page == self.count() {
            let page = page_of(*self.pages.allocator(), &[slot])?;
            self.pages.push(page)?;
            return Ok(());
        }
        let spot = self.make_room(spot)?;
        self.pages[spot.page].insert(spot.offset, slot)?;
        Ok(())
    }

    /// The same spot of the list in a page with room for one slot more: a full page is split.
    fn make_room(&mut self, spot: Spot) -> Result<Spot, Memory>
        requires spot { IsSpot self.old spot }
        requires page { spot.page < length self.old }
        ensures list { concat self.new ≡ concat self.old }
        ensures room { IfOk result (HasRoom self.new) }
        ensures place { IfOk result (λ to. place_of self.new to ≡ place_of self.old spot) }
    {
        if self.pages[spot.page].len() < PAGE {
            return Ok(spot);
        }
        self.split(spot.page)?;
        if spot.offset <= HALF {
            Ok(spot)
        } else {
            Ok(Spot {
                page: spot.page + 1,
                offset: spot.offset - HALF,
            })
        }
    }

    /// Makes two pages of a full one. After `Memory` nothing has changed.
    fn split(&mut self, page: usize) -> Result<(), Memory>
        requires page { page < length self.old }
        requires full { length (page_at self.old page) ≡ PAGE }
        ensures ok { OnOk result (self.new ≡ halved self.old page) }
        ensures err { OnErr result (self.new ≡ self.old) }
    {
        let alloc = *self.pages.allocator();
        let upper = page_of(alloc, &self.pages[page][HALF..])?;
        self.pages.insert(page + 1, upper)?;
        self.pages[page].truncate(HALF);
        Ok(())
    }
}

impl TryCopy for Pages {
    fn copy(&self, alloc: Global) -> Result<Pages, Memory> {
        let mut pages = Vec::with_capacity(alloc, self.pages.len())?;
        for page in &self.pages {
            pages.push(page_of(alloc, page)?)?;
        }
        Ok(Pages { pages })
    }
}

/// A page of these slots, with room for as many as a page may hold.
fn page_of(alloc: Global, slots: &[u16]) -> Result<Vec<u16>, Memory>
    ensures { IfOk result (λ page. page.items ≡ slots.now) }
{
    let mut page = Vec::with_capacity(alloc, PAGE)?;
    page.extend_from_slice(slots)?;
    Ok(page)
}
