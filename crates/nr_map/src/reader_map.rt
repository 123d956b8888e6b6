//! The map.
ghost use Rattle.std.specs.Prelude.{◌≡◌, ◌<◌, ◌≤◌, ◌⊎◌, ◌↔◌, [], IfOk, Err};
ghost use Rattle.nr_model.specs.declared.rows.TheConstants.{DEFAULT_ROWS, MAX_ROWS};
ghost use Rattle.nr_model.specs.declared.seq_map.TheConstants.{MAX_KEYS};
ghost use Rattle.nr_model.specs.Sizes.{IsBadSize};
ghost use Rattle.nr_core.specs.Sizes.{IsShape, IsBadShape};
ghost use Rattle.nr_core.specs.declared.shape.TheConstants.{MAX_READERS, MAX_SLOTS};
ghost use Rattle.nr_map.specs.Opened.{IsOpened, Seated};

use crate::reader::Reader;
use crate::token::Token;
use crate::writer::Writer;
use nr_board::{Board, Plan, Seat};
use nr_core::Shape;
use nr_model::{DEFAULT_ROWS, OpenFault};
use std::alloc::{AllocError, Global};
use std::marker::Model;

/// A map of key numbers to row sets, shared by a writer and readers, each with a token of its own.
#[derive(Drop)]
pub struct ReaderMap {
    pub(crate) board: Board,
}

impl Model for ReaderMap {
    ghost use Rattle.nr_core.specs.Sizes.{IsShape};
    ghost use Rattle.nr_board.specs.Callers.{Table};

    ghost Value = { Table };

    ghost view = { λ map. map.board };

    ghost invariant = { λ map. IsShape map.board.shape };
}

impl ReaderMap {
    /// A map with its writer and its readers, in the order of their numbers. Refused where a size is
    /// out of its limits: 1 to 65,536 keys, 1 to 131,072 slots and 1 to 1,024 readers; and then
    /// where there is no memory. Every slot's count of departures begins at `first_count`, and every
    /// key's ticket number at 0. A key may have 15 rows.
    pub fn open(
        alloc: Global,
        keys: u32,
        slots: u32,
        readers: u32,
        first_count: u64,
    ) -> Result<(ReaderMap, Writer, Vec<Reader>), OpenFault>
        ensures bad_size { (result ≡ Err OpenFault.BadSize) ↔ (IsBadSize MAX_KEYS keys ⊎ IsBadSize MAX_SLOTS slots ⊎ IsBadSize MAX_READERS readers) }
        ensures ok { IfOk result (λ (map, writer, all). IsOpened (record { keys = keys; slots = slots; readers = readers; first_count = first_count; first_number = 0; rows = DEFAULT_ROWS }) 0 map writer all.items) }
    {
        let shape = Shape {
            keys,
            slots,
            readers,
            first_count,
            first_number: 0,
            rows: DEFAULT_ROWS,
        };
        ReaderMap::open_with(alloc, &shape)
    }

    /// A map of that shape with its tokens. Every key's ticket number begins at `first_number`, 0 to
    /// 4,194,303, and a key may have `rows` rows, 1 to 255. What is out of its limits, as at `open`,
    /// is refused first, and then want of memory.
    pub fn open_with(
        alloc: Global,
        shape: &Shape,
    ) -> Result<(ReaderMap, Writer, Vec<Reader>), OpenFault>
        ensures bad_size { (result ≡ Err OpenFault.BadSize) ↔ IsBadShape shape.now }
        ensures ok { IfOk result (λ (map, writer, readers). IsOpened shape.now 0 map writer readers.items) }
    {
        if shape.is_bad() {
            return Err(OpenFault::BadSize);
        }
        seated(alloc, *shape, 0).map_err(|_| OpenFault::Memory)
    }

    /// How many keys the map has. They are numbered from 0.
    pub fn keys(&self) -> u32
        ensures { result ≡ self.now.shape.keys }
    {
        self.board.shape().keys
    }

    /// How many slots the map has.
    pub fn slots(&self) -> u32
        ensures { result ≡ self.now.shape.slots }
    {
        self.board.shape().slots
    }

    /// How many readers the map has. They are numbered from 1.
    pub fn readers(&self) -> u32
        ensures { result ≡ self.now.shape.readers }
    {
        self.board.shape().readers
    }

    /// How many rows a key may have: 1 to 255.
    pub fn rows(&self) -> u32
        ensures value { result ≡ self.now.shape.rows }
        ensures positive { 0 < result }
        ensures bounded { result ≤ MAX_ROWS }
    {
        self.board.shape().rows
    }
}

// A map of those sizes, of whose readers that many have a word of their own, with its tokens.
pub(crate) fn seated(
    alloc: Global,
    shape: Shape,
    announcers: u32,
) -> Result<(ReaderMap, Writer, Vec<Reader>), AllocError>
    requires sizes { IsShape shape }
    requires keys { 0 < shape.keys }
    requires few { announcers ≤ shape.readers }
    ensures { IfOk result (λ (map, writer, readers). IsOpened shape announcers map writer readers.items) }
{
    let plan = Plan { shape, announcers };
    let (board, mut seat) = Board::open(alloc, plan)?;
    let readers = seat_readers(alloc, &board, &mut seat, shape.readers)?;
    let writer = Writer::of_seat(alloc, seat, &shape, announcers)?;
    Ok((ReaderMap { board }, writer, readers))
}

// The readers, which the writer's seat makes one by one.
fn seat_readers(
    alloc: Global,
    board: &Board,
    seat: &mut Seat,
    count: u32,
) -> Result<Vec<Reader>, AllocError>
    requires seat { Seated board.now seat.old [] 0 }
    requires count { count ≡ board.now.shape.readers }
    ensures { IfOk result (λ readers. Seated board.now seat.new readers.items count) }
{
    let mut readers = Vec::with_capacity(alloc, count as usize)?;
    for made in 0..count {
        let next = board.seat(seat);
        readers.push_reserved(Reader::of_token(Token::of_seat(board, next, made)));
    }
    Ok(readers)
}
