ghost use Rattle.mn_tree.specs.Laws.{WalksArePaths, ReadsAreDraft, AddKeepsDraft, PathTells};
ghost use Rattle.mn_tree.specs.Laws.{StepKeepsTree, TransactionKeepsTree, TransactionTells};
ghost use Rattle.mn_tree.specs.Laws.{PlacingKeepsTree, StepReadsChanged, PlacedKeepsTree};
ghost use Rattle.mn_tree.specs.Laws.{SteppedKeepsTree};
ghost use Rattle.mn_tree.specs.MoveLaws.{MovesKeepTree, MovesTell, MovesRead, PlacedArePages};
ghost use Rattle.mn_tree.specs.MoveLaws.{MovesArePlaced, MovesComeOnce, QuietMoves};
ghost use Rattle.mn_tree.specs.Tries.{MovesTakePages, MovesTakeSteps, MovesAreMet, NeedsAreAbsent};
ghost use Rattle.mn_tree.specs.Tries.{NeedsAreSlots, NeedsMayCome, BadPathsCame, PlacedHaveRoom};
ghost use Rattle.mn_tree.specs.Plain.{MovesAreSteps, UnmetMovesChangeNothing, TriesShowNeeds};
ghost use Rattle.mn_tree.specs.Plain.{UnmetNeedsNothing};
ghost use Rattle.mn_tree.specs.Limits.{MovesAreFew, MovesTouchLeaves, PlacedArePut};
ghost use Rattle.mn_tree.specs.Limits.{PlacedFillSlots};

/// Where the root isn't too high, a walk that reaches a leaf goes the way of the plain model of the
/// tree.
pub fn walks_are_paths()
    ensures { WalksArePaths }
{}

/// Pages that were read from a memory that holds a store are a draft of this store.
pub fn reads_are_draft()
    ensures { ReadsAreDraft }
{}

/// A further page that is read leaves a draft what it is.
pub fn add_keeps_draft()
    ensures { AddKeepsDraft }
{}

/// The leaf at the end of a key's path has the version's value of the key.
pub fn path_tells()
    ensures { PathTells }
{}

/// A step leaves a draft of the store with the step done: copies and splits keep the tree.
pub fn step_keeps_tree()
    ensures { StepKeepsTree }
{}

/// The steps of a transaction leave a draft of the store after the transaction.
pub fn transaction_keeps_tree()
    ensures { TransactionKeepsTree }
{}

/// What the steps find on the leaves of their paths is the transaction's reply.
pub fn transaction_tells()
    ensures { TransactionTells }
{}

/// The pages of a draft are still a tree that shows its store once the new ones have slots that the
/// memory has free.
pub fn placing_keeps_tree()
    ensures { PlacingKeepsTree }
{}

/// The read set has each changed page, also after a step.
pub fn step_reads_changed()
    ensures { StepReadsChanged }
{}

/// In the order in which they stand in a plan the placed pages are that tree too.
pub fn placed_keeps_tree()
    ensures { PlacedKeepsTree }
{}

/// A step of the tree in memory that reaches its leaf leaves a draft of the store with the step
/// done, where the root isn't too high.
pub fn stepped_keeps_tree()
    ensures { SteppedKeepsTree }
{}

/// Where the pages of the read set stand as they were read, the steps leave a draft of the store
/// with the steps done, though other pages were out of date.
pub fn moves_keep_tree()
    ensures { MovesKeepTree }
{}

/// Where the leaves of the read set stand as they were read, what the steps find is what they find
/// on the version's pairs.
pub fn moves_tell()
    ensures { MovesTell }
{}

/// Each page of the read set came in, and is a leaf or was changed.
pub fn moves_read()
    ensures { MovesRead }
{}

/// What a plan writes is in the grammar of pages.
pub fn placed_are_pages()
    ensures { PlacedArePages }
{}

/// The pages that a plan writes show the store with the steps done, over those of a memory that has
/// the pages of the read set as they were read.
pub fn moves_are_placed()
    ensures { MovesArePlaced }
{}

/// Steps that only read change no page.
pub fn moves_may_be_quiet()
    ensures { QuietMoves }
{}

/// No page comes in twice.
pub fn moves_come_once()
    ensures { MovesComeOnce }
{}

/// A page that may come in may be the next of the moves.
pub fn moves_take_pages()
    ensures { MovesTakePages }
{}

/// A step that is done is the next of the moves; an unmet Check is the last one, and their answer.
pub fn moves_take_steps()
    ensures { MovesTakeSteps }
{}

/// Moves whose Checks are all met answer with what they have found.
pub fn moves_are_met()
    ensures { MovesAreMet }
{}

/// The page that a step needs isn't held.
pub fn needs_are_absent()
    ensures { NeedsAreAbsent }
{}

/// The page that a step needs stands in a slot.
pub fn needs_are_slots()
    ensures { NeedsAreSlots }
{}

/// The page that a step needs may come in where it fits.
pub fn needs_may_come()
    ensures { NeedsMayCome }
{}

/// Where a step meets a bad page, a page was read at the address that it names.
pub fn bad_paths_came()
    ensures { BadPathsCame }
{}

/// The pages that a plan writes are no larger than a slot.
pub fn placed_have_room()
    ensures { PlacedHaveRoom }
{}

/// In the plain model, over the pages that came in, the steps of moves whose Checks are all met
/// leave what the moves leave.
pub fn moves_are_steps()
    ensures { MovesAreSteps }
{}

/// There, steps with an unmet Check leave the pages as they came in.
pub fn unmet_moves_change_nothing()
    ensures { UnmetMovesChangeNothing }
{}

/// The new pages of a try are as many as the slots that its transaction takes, and the old pages
/// that it changed are those that the transaction writes.
pub fn tries_show_needs()
    ensures { TriesShowNeeds }
{}

/// A transaction with an unmet Check takes no slot and writes no page.
pub fn unmet_needs_nothing()
    ensures { UnmetNeedsNothing }
{}

/// At most 16 steps read and change at most 241 old pages, and make at most 518 new ones.
pub fn moves_are_few()
    ensures { MovesAreFew }
{}

/// Where a step is done, the read set has a leaf that it touched.
pub fn moves_touch_leaves()
    ensures { MovesTouchLeaves }
{}

/// A plan writes the changed pages as they joined the read set, and then the new ones in the slots.
pub fn placed_are_put()
    ensures { PlacedArePut }
{}

/// Each page that a plan writes is as long as a slot.
pub fn placed_fill_slots()
    ensures { PlacedFillSlots }
{}
