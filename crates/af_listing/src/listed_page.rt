ghost use Rattle.std.specs.Prelude.{◌≡◌, ◌<◌, ◌-◌, ◌^◌, [], IfOk, OnOk};
ghost use Rattle.std.specs.List.{range_with_len};
ghost use Rattle.af_listing.specs.Pages.{whole_page, with_row};

use crate::Window;
use std::alloc::{AllocError, Global};
use std::marker::Model;

/// A page of a listing: where its rows stand in the whole list, counted from 0, and how many rows of the list are shown in
/// all. Contracts see these two.
#[derive(Drop)]
pub struct Page {
    places: Vec<usize>,
    total: usize,
}

impl Model for Page {
    ghost use Rattle.af_listing.specs.Pages.{Told};

    ghost Value = { Told };

    ghost view = { λ page. record { places = page.places.items; total = page.total } };
}

impl Page {
    /// Where the page's rows stand in the whole list, counted from 0, in its order.
    pub fn places(&self) -> &[usize]
        ensures { result.now ≡ self.now.places }
    {
        self.places.as_slice()
    }

    /// How many rows of the whole list are shown.
    pub fn total(&self) -> usize
        ensures { result ≡ self.now.total }
    {
        self.total
    }

    /// The page of no rows.
    pub(crate) fn empty(alloc: Global) -> Page
        ensures { result ≡ record { places = []; total = 0 } }
    {
        Page {
            places: Vec::new(alloc),
            total: 0,
        }
    }

    /// The page of a list of so many rows that are all shown. It takes as long as the page has rows, whatever the list has.
    /// `AllocError` only where a growth was refused.
    pub(crate) fn of_all(alloc: Global, total: usize, window: Window) -> Result<Page, AllocError>
        ensures { IfOk result (λ page. page ≡ whole_page window total) }
    {
        let first = window.offset().min(total);
        let count = window.limit().min(total - first);
        let places = numbers(alloc, first, first + count)?;
        Ok(Page { places, total })
    }

    /// Goes by the row at a place, the next of the list: where it is shown it is counted, and told if the window has it.
    /// `AllocError` only where a growth was refused.
    pub(crate) fn see(
        &mut self,
        place: usize,
        is_shown: bool,
        window: Window,
    ) -> Result<(), AllocError>
        requires { self.old.total < 2 ^ 64 - 1 }
        ensures { OnOk result (self.new ≡ with_row window place is_shown self.old) }
    {
        if !is_shown {
            return Ok(());
        }
        if window.offset() <= self.total && self.places.len() < window.limit() {
            self.places.push(place)?;
        }
        self.total += 1;
        Ok(())
    }
}

/// The numbers from one on, up to another.
fn numbers(alloc: Global, first: usize, end: usize) -> Result<Vec<usize>, AllocError>
    ensures { IfOk result (λ numbers. numbers.items ≡ range_with_len first (end - first)) }
{
    (first..end).collect(alloc)
}
