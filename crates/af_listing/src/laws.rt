// Laws of pages, whatever the rows and whoever reads. Each is the contract of a function that does nothing.
ghost use Rattle.std.specs.Prelude.{Bool, List};
ghost use Rattle.af_listing.specs.Laws.{HiddenRowsAreNotTold, HiddenRowsChangeNothing, NumbersMayBeCut, PagesMakeTheListing, PagesTellShownRows, TotalsCountShownRows, WholeListingsAreCut};

/// A page tells the rows that are shown, cut by its window: filter, then drop, then take.
pub fn pages_tell_shown_rows<T>()
    ensures { (shown : T → Bool) → PagesTellShownRows shown }
{}

/// A hidden row stands on no page.
pub fn hidden_rows_are_not_told<T>()
    ensures { (shown : T → Bool) → HiddenRowsAreNotTold shown }
{}

/// The total counts each row of the whole list that is shown, and no other.
pub fn totals_count_shown_rows<T>()
    ensures { (shown : T → Bool) → TotalsCountShownRows shown }
{}

/// Two lists that differ in hidden rows alone have one page and one total.
pub fn hidden_rows_change_nothing<T>()
    ensures { (shown : T → Bool) → HiddenRowsChangeNothing shown }
{}

/// The pages of a listing, put together, are its shown rows, in order, each once.
pub fn pages_make_the_listing<T>()
    ensures { (shown : T → Bool) → PagesMakeTheListing shown }
{}

/// Where all rows are shown, a page is cut of the list itself, and the total is its length.
pub fn whole_listings_are_cut<T>()
    ensures { (shown : T → Bool) → WholeListingsAreCut shown }
{}

/// To cut an offset to 64 bits changes no page of a list that memory can hold.
pub fn numbers_may_be_cut<T>()
    ensures { (rows : List T) → NumbersMayBeCut rows }
{}
