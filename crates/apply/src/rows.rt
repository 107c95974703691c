// The rows: what a change writes into the tables, at most one row, and the counts.
ghost use Rattle.std.specs.Prelude.{◌≡◌, ◌<◌, ◌≤◌};
ghost use Rattle.apply.specs.Apply.{labelled, forked, called, back_from, RowFits};
ghost use Rattle.apply.specs.Writes.{of_row, row_writes};

use lent::Counts;
use numbers::{LabelPair, PUBLIC, Principal};
use outcomes::RowChange;
use tables::rows::{ObjectRow, TagRow, ThreadRow, no_thread};

// The one row that is written, under its number, or none.
#[derive(Clone, Copy)]
pub enum RowWrite {
    Keep,
    Thread(usize, ThreadRow),
    Tag(usize, TagRow),
    Object(usize, ObjectRow),
}

#[derive(Clone, Copy)]
pub struct Writes {
    pub row: RowWrite,
    pub counts: Counts,
}

fn of_row(row: RowWrite, counts: Counts) -> Writes
    ensures { result ≡ of_row row counts }
{
    Writes { row, counts }
}

fn labelled(row: ThreadRow, labels: LabelPair) -> ThreadRow
    ensures { result ≡ labelled row labels }
{
    ThreadRow { labels, ..row }
}

fn forked(row: ThreadRow, p: Principal) -> ThreadRow
    ensures { result ≡ forked row p }
{
    ThreadRow {
        live: 1,
        principal: p,
        labels: row.labels,
        calls: 0,
        aside: [Principal(PUBLIC); 8],
    }
}

// "caller put aside, runs as P"
fn called(row: ThreadRow, p: Principal) -> ThreadRow
    requires { row.calls < 8 }
    ensures { result ≡ called row p }
{
    let mut aside = row.aside;
    aside[row.calls] = row.principal;
    ThreadRow {
        principal: p,
        calls: row.calls + 1,
        aside,
        ..row
    }
}

// "last one put aside is back; labels stay"
fn back_from(row: ThreadRow) -> ThreadRow
    requires { (0 < row.calls) × (row.calls ≤ 8) }
    ensures { result ≡ back_from row }
{
    let calls = row.calls - 1;
    let principal = row.aside[calls];
    let mut aside = row.aside;
    aside[calls] = Principal(PUBLIC);
    ThreadRow {
        principal,
        calls,
        aside,
        ..row
    }
}

// The caller has the number n and the row `own`.
pub fn row_writes(n: usize, own: ThreadRow, counts: Counts, c: RowChange) -> Writes
    requires { RowFits counts.principals counts.tags n own c }
    ensures { result ≡ row_writes n own counts c }
{
    match c {
        RowChange::Keep => of_row(RowWrite::Keep, counts),
        RowChange::NewPrincipal => {
            let principals = counts.principals + 1;
            of_row(
                RowWrite::Keep,
                Counts {
                    principals,
                    ..counts
                },
            )
        }
        RowChange::NewTag(row) => {
            let tags = counts.tags + 1;
            of_row(
                RowWrite::Tag(counts.tags as usize, row),
                Counts { tags, ..counts },
            )
        }
        RowChange::Labels(labels) => of_row(RowWrite::Thread(n, labelled(own, labels)), counts),
        RowChange::NewThread(k, p) => of_row(RowWrite::Thread(k, forked(own, p)), counts),
        RowChange::End => of_row(RowWrite::Thread(n, no_thread()), counts),
        RowChange::Call(p) => of_row(RowWrite::Thread(n, called(own, p)), counts),
        RowChange::Return => of_row(RowWrite::Thread(n, back_from(own)), counts),
        RowChange::Object(o, row) => of_row(RowWrite::Object(o, row), counts),
    }
}
