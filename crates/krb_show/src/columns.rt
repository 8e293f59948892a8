//! Tables in columns, and numbers of things.

ghost use Rattle.std.specs.Prelude.{◌≡◌, ◌-◌, ◌++◌, ◌∷◌, IfOk, OnOk, length, map, max, replicate};
ghost use Rattle.std.specs.List.{fold, flat_map};
ghost use Rattle.krb_show.specs.Columns.{asked_width, cell_of, cells_behind, counted, padded_width, row_text, table, widths};

use itoa::Buffer;
use krb_text::{append, append_byte};
use krb_wire::NoMemory;
use std::alloc::Allocator;

// A longer cell has no say in the width of its column.
const MAX_WIDTH: usize = 40;

/// A row of a table. A cell is made where it is used: once for the width of its column, and once in its line.
pub trait Row<A: Allocator + Copy> {
    ghost use Rattle.std.specs.Prelude.{ℕ, List, ◌≡◌, ◌++◌, OnOk, length};
    ghost use Rattle.krb_show.specs.Columns.{cell_of};

    ghost cells: { Self → List (List ℕ) };

    /// Returns how many cells it has.
    fn cell_count(&self) -> usize
        ensures { result ≡ length (cells self.now) };

    /// Appends its cell in a column, if there is one.
    fn append_cell(&self, alloc: A, column: usize, out: &mut Vec<u8, A>) -> Result<(), NoMemory>
        ensures { OnOk result (out.new.items ≡ out.old.items ++ cell_of column (cells self.now)) };
}

/// The rows of a table.
pub trait Rows<A: Allocator + Copy> {
    ghost use Rattle.std.specs.Prelude.{ℕ, List, ◌≡◌, ◌++◌, IfOk, OnOk, max};
    ghost use Rattle.std.specs.List.{fold, flat_map};
    ghost use Rattle.krb_show.specs.Columns.{asked_width, cell_of, row_text};

    ghost rows: { Self → List (List (List ℕ)) };

    /// Returns the width of a column that is at least as wide as this.
    fn widened(&self, alloc: A, column: usize, least: usize) -> Result<usize, NoMemory>
        ensures { IfOk result (λ width. width ≡ fold (λ w row. max w (asked_width (cell_of column row))) least (rows self.now)) };

    /// Appends their lines.
    fn append_lines(&self, alloc: A, widths: &[usize], out: &mut Vec<u8, A>) -> Result<(), NoMemory>
        ensures { OnOk result (out.new.items ≡ out.old.items ++ flat_map (row_text widths.now) (rows self.now)) };
}

#[derive(Drop)]
struct Titles<'t>(&'t [&'t [u8]]);

impl<A: Allocator + Copy> Row<A> for Titles<'_> {
    ghost use Rattle.std.specs.Prelude.{map};

    ghost cells = { λ titles. map (λ title. title.now) titles.0.now };

    fn cell_count(&self) -> usize {
        self.0.len()
    }

    fn append_cell(&self, _alloc: A, column: usize, out: &mut Vec<u8, A>) -> Result<(), NoMemory> {
        match self.0.get(column) {
            Some(title) => append(title, out),
            None => Ok(()),
        }
    }
}

// Returns the width that a cell asks for.
fn asked_width(cell: &[u8]) -> usize
    ensures { result ≡ asked_width cell.now }
{
    if cell.len() <= MAX_WIDTH {
        cell.len()
    } else {
        0
    }
}

/// Returns the width of a column with one more row. The cell is made in `cell`.
pub fn widened_by<A: Allocator + Copy, R: Row<A>>(
    alloc: A,
    column: usize,
    width: usize,
    row: &R,
    cell: &mut Vec<u8, A>,
) -> Result<usize, NoMemory>
    ensures { IfOk result (λ w. w ≡ max width (asked_width (cell_of column (R.cells row.now)))) }
{
    cell.clear();
    row.append_cell(alloc, column, cell)?;
    Ok(width.max(asked_width(cell)))
}

// Returns the width of a column, but none of the last: nothing is behind it.
fn padded_width<A: Allocator + Copy, T: Rows<A>>(
    alloc: A,
    titles: &[&[u8]],
    column: usize,
    rows: &T,
    cell: &mut Vec<u8, A>,
) -> Result<usize, NoMemory>
    ensures { IfOk result (λ width. width
        ≡ padded_width (length titles.now - 1) column (map (λ title. title.now) titles.now ∷ T.rows rows.now)) }
{
    if column == titles.len().saturating_sub(1) {
        return Ok(0);
    }
    let least = widened_by(alloc, column, 0, &Titles(titles), cell)?;
    rows.widened(alloc, column, least)
}

fn widths<A: Allocator + Copy, T: Rows<A>>(
    alloc: A,
    titles: &[&[u8]],
    rows: &T,
) -> Result<Vec<usize, A>, NoMemory>
    ensures { IfOk result (λ all. all.items
        ≡ widths (length titles.now) (map (λ title. title.now) titles.now ∷ T.rows rows.now)) }
{
    let mut all = Vec::new(alloc);
    let mut cell = Vec::new(alloc);
    'columns: for column in 0..titles.len() {
        all.push(padded_width(alloc, titles, column, rows, &mut cell)?)?;
    }
    Ok(all)
}

// Appends a cell behind some blanks, and returns its length.
fn append_behind<A: Allocator + Copy, R: Row<A>>(
    alloc: A,
    blanks: usize,
    column: usize,
    row: &R,
    out: &mut Vec<u8, A>,
) -> Result<usize, NoMemory>
    ensures text { OnOk result (out.new.items ≡ out.old.items ++ (replicate blanks 32 ++ cell_of column (R.cells row.now))) }
    ensures len { IfOk result (λ len. len ≡ length (cell_of column (R.cells row.now))) }
{
    let start = out.len().checked_add(blanks).ok_or(NoMemory)?;
    out.resize(start, b' ')?;
    row.append_cell(alloc, column, out)?;
    Ok(out.len() - start)
}

fn append_cells<A: Allocator + Copy, R: Row<A>>(
    alloc: A,
    widths: &[usize],
    row: &R,
    out: &mut Vec<u8, A>,
) -> Result<(), NoMemory>
    ensures { OnOk result (out.new.items ≡ out.old.items ++ cells_behind 0 widths.now (R.cells row.now)) }
{
    let mut blanks: usize = 0;
    'columns: for column in 0..row.cell_count() {
        if column >= widths.len() {
            return Ok(());
        }
        let len = append_behind(alloc, blanks, column, row, out)?;
        let rest = widths[column].saturating_sub(len);
        blanks = rest.checked_add(2).ok_or(NoMemory)?;
    }
    Ok(())
}

/// Appends the line of a row.
pub fn append_line<A: Allocator + Copy, R: Row<A>>(
    alloc: A,
    widths: &[usize],
    row: &R,
    out: &mut Vec<u8, A>,
) -> Result<(), NoMemory>
    ensures { OnOk result (out.new.items ≡ out.old.items ++ row_text widths.now (R.cells row.now)) }
{
    append_cells(alloc, widths, row, out)?;
    append_byte(b'\n', out)
}

/// Appends the table of some rows, if there are any.
pub fn append_table<A: Allocator + Copy, T: Rows<A>>(
    alloc: A,
    titles: &[&[u8]],
    count: usize,
    rows: &T,
    out: &mut Vec<u8, A>,
) -> Result<(), NoMemory>
    requires { count ≡ length (T.rows rows.now) }
    ensures { OnOk result (out.new.items ≡ out.old.items ++ table (map (λ title. title.now) titles.now) (T.rows rows.now)) }
{
    if count == 0 {
        return Ok(());
    }
    let widths = widths(alloc, titles, rows)?;
    append_line(alloc, &widths, &Titles(titles), out)?;
    rows.append_lines(alloc, &widths, out)
}

/// Appends a number of things.
pub fn append_counted<A: Allocator>(
    count: usize,
    noun: &[u8],
    out: &mut Vec<u8, A>,
) -> Result<(), NoMemory>
    ensures { OnOk result (out.new.items ≡ out.old.items ++ counted count noun.now) }
{
    let mut buffer = Buffer::new();
    append(buffer.format(count).as_bytes(), out)?;
    append_byte(b' ', out)?;
    append(noun, out)?;
    append(if count == 1 { b"" } else { b"s" }, out)
}
