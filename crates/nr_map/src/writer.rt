//! The writer's token.
ghost use Rattle.std.specs.Prelude.{◌≡◌, false, [], replicate, IfOk};
ghost use Rattle.nr_core.specs.Sizes.{IsShape};
ghost use Rattle.nr_core.specs.States.{opening_desk};
ghost use Rattle.nr_core.specs.declared.roles.Role.TheVariants.{Writer as writer_role};
ghost use Rattle.nr_board.specs.Callers.{KnowsOwn, token};
ghost use Rattle.nr_board.specs.Views.{view_of};

use nr_board::{ScanFlags, Seat};
use nr_core::{Shape, SlotLists};
use nr_model::SortedRows;
use std::alloc::{AllocError, Global};
use std::marker::Model;

/// What the writer makes its steps with.
#[derive(Drop)]
pub struct Writer {
    pub(crate) seat: Seat,
    pub(crate) lists: SlotLists,
    pub(crate) flags: ScanFlags,
    /// The rows on which an update works, written anew by each.
    pub(crate) sorted: SortedRows,
}

impl Model for Writer {
    ghost use Rattle.nr_board.specs.Callers.{Caller, token};

    ghost Value = { Caller };

    ghost use Rattle.nr_board.specs.Flags.{IsFlagged};
    ghost use Rattle.nr_board.specs.WriterSeats.{RestsAt};

    ghost view = { λ writer. token writer.seat };

    ghost invariant = { λ writer. RestsAt (token writer.seat).table writer.lists writer.seat × IsFlagged (token writer.seat).table writer.lists.retired (token writer.seat).heard writer.flags };
}

impl Writer {
    /// The writer of a new map of that shape, of whose readers that many have a word of their own.
    pub(crate) fn of_seat(
        alloc: Global,
        seat: Seat,
        shape: &Shape,
        announcers: u32,
    ) -> Result<Writer, AllocError>
        requires sizes { IsShape shape.now }
        requires role { (view_of seat).role ≡ writer_role (opening_desk shape.now) }
        requires shape { (view_of seat).shape ≡ shape.now }
        requires new { (view_of seat).seen ≡ [] }
        requires announcers { (view_of seat).announcers ≡ announcers }
        requires none_heard { (view_of seat).heard ≡ replicate shape.now.slots 0 }
        requires own { KnowsOwn (token seat) }
        requires none_reaped { (view_of seat).marks.reaped ≡ replicate shape.now.slots false }
        ensures { IfOk result (λ writer. writer ≡ token seat) }
    {
        let lists = SlotLists::open(alloc, shape)?;
        let flagged = if announcers == 0 { 0 } else { shape.slots };
        let flags = ScanFlags::open(alloc, flagged)?;
        let sorted = SortedRows::new();
        Ok(Writer {
            seat,
            lists,
            flags,
            sorted,
        })
    }
}
