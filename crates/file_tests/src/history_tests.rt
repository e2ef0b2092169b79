//! Lines of a journal, and the text of a state.
ghost use Rattle.std.specs.Prelude.{◌≡◌, ◌≤◌, All, List, IfOk, length, None};
ghost use Rattle.nf_base.specs.declared.decl.ChainDecl.{ChainDecl};
ghost use Rattle.nf_base.specs.Limits.{Fits, HaveShortKeys};
ghost use Rattle.nf_base.specs.Statements.{statements};
ghost use Rattle.nf_base.specs.View.{block_of};

use nf_base::block::{Block, Ending};
use nf_base::card::{Card, KeySize, TableSize};
use nf_base::decl::{ArrayDecl, ChainDecl, ColumnDecl, ColumnId, Name, ObjectId};
use nf_base::done::Action;
use nf_base::func::Func;
use nf_base::handler::Handler;
use nf_base::indexed::Indexed;
use nf_base::limited::Limited;
use nf_base::packet::PacketId;
use nf_base::picks::Picks;
use nf_base::port_handlers::PortHandlers;
use nf_base::seq::Seq;
use nf_base::size::Size;
use nf_base::state::{Chain, Entry, State};
use nf_base::width::Width;
use run_history::header::Header;
use run_history::line::{JournalLine, Mode, write_line};
use run_history::reader::read_line;
use run_history::state_text::state_text;
use std::alloc::{AllocError, Global};

const USUAL: Card = Card {
    table: TableSize::Entries128,
    key: KeySize::Bytes40,
};

const LONG_KEYS: Card = Card {
    table: TableSize::Entries128,
    key: KeySize::Bytes52,
};

const LARGE_TABLE: Card = Card {
    table: TableSize::Entries512,
    key: KeySize::Bytes40,
};

const LARGE: Card = Card {
    table: TableSize::Entries512,
    key: KeySize::Bytes52,
};

/// First lines of journals, and what they tell.
static FIRST_LINES: [(Mode, u32, Card, &str); 6] = [
    (Mode::One, 1, USUAL, "maestro journal 1 one 1\n"),
    (Mode::Shard, 2, USUAL, "maestro journal 1 shard 2\n"),
    (Mode::Lock, 16, USUAL, "maestro journal 1 lock 16\n"),
    (Mode::Shard, 2, LARGE, "maestro journal 2 shard 2 512 52\n"),
    (
        Mode::One,
        1,
        LARGE_TABLE,
        "maestro journal 2 one 1 512 40\n",
    ),
    (
        Mode::Lock,
        16,
        LONG_KEYS,
        "maestro journal 2 lock 16 128 52\n",
    ),
];

fn first_lines() -> &'static [(Mode, u32, Card, &'static str)] {
    &FIRST_LINES
}

#[test]
fn a_header_names_the_mode_the_workers_and_another_card(rt: HostRuntime) {
    for (mode, workers, card, text) in first_lines() {
        let header = Header::of(*mode, *workers, *card).expect(&rt, "workers of the mode");
        let bytes = write_line(rt.alloc(), &JournalLine::Header(header)).expect(&rt, "memory");
        assert!(rt; bytes.as_slice() == text.as_bytes(), "{text}");
    }
}

/// Whether a text is the first line of a journal that tells this.
fn tells(text: &str, mode: Mode, workers: u32, card: Card) -> bool {
    match read_line(text.as_bytes()) {
        Some(JournalLine::Header(header)) => {
            header.mode() == mode && header.workers().get() == workers && header.card() == card
        }
        _ => false,
    }
}

#[test]
fn a_header_is_read_as_it_was_written(rt: HostRuntime) {
    for (mode, workers, card, text) in first_lines() {
        assert!(rt; tells(text, *mode, *workers, *card), "{text}");
    }
}

/// Texts that are no line of a journal.
static NO_LINES: [&str; 14] = [
    "maestro journal 2 shard 2 128 40\n",
    "maestro journal 2 one 1 128 40\n",
    "maestro journal 2 shard 2\n",
    "maestro journal 2 shard 2 512\n",
    "maestro journal 2 shard 2 512 \n",
    "maestro journal 2 shard 2 256 40\n",
    "maestro journal 2 shard 2 512 41\n",
    "maestro journal 2 shard 2 52 512\n",
    "maestro journal 2 shard 2 512 52 0\n",
    "maestro journal 2 shard 1 512 52\n",
    "maestro journal 2 shard 2 0512 52\n",
    "maestro journal 1 shard 2 512 52\n",
    "maestro journal 3 shard 2 512 52\n",
    "maestro journal 2 shard 2 512 52",
];

fn no_lines() -> &'static [&'static str] {
    &NO_LINES
}

#[test]
fn other_texts_are_no_first_line(rt: HostRuntime) {
    for text in no_lines() {
        assert!(rt; read_line(text.as_bytes()).is_none(), "{text}");
    }
}

fn two_picks() -> Picks {
    let mut picks = Picks::new();
    picks.push(65_535);
    picks.push(0);
    picks
}

fn one_pick() -> Picks {
    let mut picks = Picks::new();
    picks.push(7);
    picks
}

#[test]
fn a_packet_has_five_words(rt: HostRuntime) {
    let cases: [(Action, u8, &str); 5] = [
        (Action::Skip, 0, "3 4294967295 15 skip -\n"),
        (Action::Drop, 0, "3 4294967295 15 drop -\n"),
        (Action::Flood, 1, "3 4294967295 15 flood 7\n"),
        (Action::To(0), 2, "3 4294967295 15 to:0 65535,0\n"),
        (Action::To(3), 0, "3 4294967295 15 to:3 -\n"),
    ];
    for (action, choices, text) in cases {
        let line = JournalLine::Packet {
            id: PacketId {
                port: 3,
                seq: 4_294_967_295,
            },
            worker: 15,
            action,
            picks: match choices {
                0 => Picks::new(),
                1 => one_pick(),
                _ => two_picks(),
            },
        };
        let bytes = write_line(rt.alloc(), &line).expect(&rt, "memory");
        assert!(rt; bytes.as_slice() == text.as_bytes(), "{text}");
    }
}

fn name(alloc: Global, text: [u8; 4]) -> Result<Name, AllocError> {
    Ok(Limited::from_vec(Vec::from_slice(alloc, &text)?))
}

fn column<const MOST: u32>(
    alloc: Global,
    columns: &mut Limited<ColumnDecl, MOST>,
    text: [u8; 4],
) -> Result<(), AllocError> {
    if columns.len() < MOST {
        columns.push(ColumnDecl {
            name: name(alloc, text)?,
            width: Width::W32,
        })
    } else {
        Ok(())
    }
}

// Two labels, and between them, in the text, a free column.
fn flows(alloc: Global) -> Result<ChainDecl, AllocError>
    ensures maps { IfOk result (λ decl. length decl.maps ≡ 0) }
    ensures keys { IfOk result (λ decl. HaveShortKeys decl.maps) }
{
    let mut labels = Limited::new(alloc);
    column(alloc, &mut labels, *b"addr")?;
    column(alloc, &mut labels, *b"port")?;
    let mut columns = Limited::new(alloc);
    column(alloc, &mut columns, *b"seen")?;
    let order = [ColumnId::Label(0), ColumnId::Column(0), ColumnId::Label(1)];
    Ok(ChainDecl {
        name: name(alloc, *b"flow")?,
        size: Size::new(3),
        lifetime: 1,
        labels,
        columns,
        maps: Limited::new(alloc),
        order: Limited::from_vec(Vec::from_slice(alloc, &order)?),
    })
}

fn idle() -> PortHandlers
    ensures four { (decls : List ChainDecl) →
        All (Fits decls) (statements (block_of result.four.block)) }
    ensures six { result.six ≡ None }
{
    PortHandlers {
        four: Handler {
            block: Block::End(Ending::FallsOff),
        },
        six: None,
    }
}

// A chain, and an array whose cells open as 0, 5 and 0.
fn function(alloc: Global) -> Result<Func, AllocError> {
    let mut chains = Vec::new(alloc);
    chains.push(flows(alloc)?)?;
    let mut arrays = Vec::new(alloc);
    arrays.push(ArrayDecl {
        name: name(alloc, *b"load")?,
        width: Width::W32,
        cells: Indexed::from_vec(Vec::from_slice(alloc, &[0, 5, 0])?),
    })?;
    let mut handlers = Vec::new(alloc);
    handlers.push(idle())?;
    let objects = [ObjectId::Chain(0), ObjectId::Array(0)];
    let chains = Limited::from_vec(chains);
    let handlers = Limited::from_vec(handlers);
    Ok(Func {
        name: Name::new(alloc),
        chains,
        arrays: Limited::from_vec(arrays),
        objects: Limited::from_vec(Vec::from_slice(alloc, &objects)?),
        handlers,
    })
}

// Of three indices the first and the last are live.
fn flow_slots(alloc: Global) -> Result<Indexed<Option<Entry>>, AllocError> {
    let mut slots = Vec::new(alloc);
    slots.push(Some(Entry {
        stamp: 7,
        labels: Seq::from_vec(Vec::from_slice(alloc, &[4_294_967_295, 53])?),
        columns: Seq::from_vec(Vec::from_slice(alloc, &[0])?),
    }))?;
    slots.push(None)?;
    slots.push(Some(Entry {
        stamp: 18_446_744_073_709_551_615,
        labels: Seq::from_vec(Vec::from_slice(alloc, &[1, 2])?),
        columns: Seq::from_vec(Vec::from_slice(alloc, &[3])?),
    }))?;
    Ok(Indexed::from_vec(slots))
}

fn state(alloc: Global) -> Result<State, AllocError> {
    let mut chains = Seq::new(alloc);
    chains.push(Chain {
        slots: flow_slots(alloc)?,
        greatest: 18_446_744_073_709_551_615,
    })?;
    let mut arrays = Seq::new(alloc);
    arrays.push(Indexed::from_vec(Vec::from_slice(alloc, &[0, 0, 6])?))?;
    Ok(State { chains, arrays })
}

#[test]
fn a_state_lists_live_entries_and_changed_cells(rt: HostRuntime) {
    let alloc = rt.alloc();
    let func = function(alloc).expect(&rt, "memory");
    let state = state(alloc).expect(&rt, "memory");
    let text = state_text(alloc, &func, &state).expect(&rt, "memory");
    let expected = "chain flow greatest 18446744073709551615\n\
        0 7 addr=4294967295 seen=0 port=53\n\
        2 18446744073709551615 addr=1 seen=3 port=2\n\
        array load\n\
        1 0\n\
        2 6\n";
    assert!(rt; text.as_slice() == expected.as_bytes());
}
