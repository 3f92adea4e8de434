ghost use Rattle.mn_base.specs.Store.{empty_store};
ghost use Rattle.mn_page.specs.Forest.{memory_of, base_forest};
ghost use Rattle.mn_page.specs.Holds.{Holds};
ghost use Rattle.mn_page.specs.Added.{SnapshotIsShown, BranchIsShown};
ghost use Rattle.mn_page.specs.Copies.{CopiesArePages};
ghost use Rattle.mn_page.specs.Laws.{LeafTells, LeafTellsGet, NoneTooHigh};

/// The space of one fresh node holds the store with the empty version `main`.
pub fn base_holds_empty_store()
    ensures { Holds (memory_of (base_forest 1)) empty_store }
{}

/// In a memory that holds a store, for each version and key just one leaf serves the version and
/// covers the key, and it tells the key's value.
pub fn leaf_tells()
    ensures { LeafTells }
{}

/// That leaf tells the reply to a transaction of one Get.
pub fn leaf_tells_get()
    ensures { LeafTellsGet }
{}

/// In a memory that holds a store no page is higher than 14.
pub fn none_too_high()
    ensures { NoneTooHigh }
{}

/// A page that is copied for a later version, and its copy, are pages.
pub fn copies_are_pages()
    ensures { CopiesArePages }
{}

/// A Snapshot and a Branch: where the root page of the parent is marked for the new version and its
/// copy stands at a free address, the pages and the entries with the new one behind them are a tree
/// that shows what the operation makes of the store. A Snapshot freezes the parent's entry.
pub fn child_is_shown()
    ensures snapshot { SnapshotIsShown }
    ensures branch { BranchIsShown }
{}
