//! The pool of rows.
ghost use Rattle.std.specs.Prelude.{◌≡◌, ◌≢◌, ◌+◌, ◌-◌, ◌*◌, ◌<◌, ◌≤◌, ◌++◌, ◌^◌, ℕ, true, false, length, take, drop, slice_get, IfOk, IfSome, IfNone, count_by, not, vec_capacity};
ghost use Rattle.std.specs.Borrow.{sem};
ghost use Rattle.std.proofs.Common.{replicate};
ghost use Rattle.fixpoint.specs.Pool.Pool.{Pool, row_of, with_row, with_mark, with_taken, IsTaken, IsFree, IsWhole, free_count, fresh_pool};

use crate::pool::row_name::Row;
use cc_base::Memory;
use std::alloc::{AllocError, Global};
use std::marker::Model;

/// Rows of `width` cells each, in one block of memory that `new` reserves. A row is filled when it is
/// first in use, so that memory of rows that are never in use stays untouched.
///
/// Contracts see the width, for each row whether it is in use, the cells as far as rows have been in
/// use, and what a row is filled with.
#[derive(Drop)]
pub struct RowPool<V: Copy> {
    pub(crate) width: u32,
    pub(crate) taken: Vec<bool>,
    pub(crate) stored: u32,
    pub(crate) cells: Vec<V>,
    pub(crate) fill: V,
}

impl<V: Copy> Model for RowPool<V> {
    ghost use Rattle.std.specs.Prelude.{◌≡◌, ◌-◌, ◌*◌, ◌<◌, ◌≤◌, ◌^◌, false, length, drop, vec_capacity};
    ghost use Rattle.std.proofs.Common.{replicate};
    ghost use Rattle.fixpoint.specs.Pool.Pool.{Pool, pool_code};

    ghost Value = { Pool V };

    ghost coded = { pool_code V.code };

    ghost view = { λ p. record { width = p.width; taken = p.taken.items; cells = p.cells.items; fill = p.fill } };

    ghost invariant = { λ p. (length p.cells.items ≡ p.stored * p.width) × (drop p.stored p.taken.items ≡ replicate (length p.taken.items - p.stored) false) × (length p.taken.items * p.width ≤ vec_capacity p.cells) × (length p.taken.items < 2 ^ 32) };
}

impl<V: Copy> RowPool<V> {
    ghost use Rattle.fixpoint.specs.Pool.Lending.{lends_row};

    /// `rows` free rows of `width` cells, each cell `fill` when its row is first in use. `Memory` where
    /// memory is short.
    pub fn new(alloc: Global, rows: u32, width: u32, fill: V) -> Result<RowPool<V>, Memory>
        ensures { IfOk result (λ pool. pool ≡ fresh_pool rows width fill) }
    {
        let taken = filled(alloc, rows as usize, false)?;
        let cells = Vec::with_capacity(alloc, rows as usize * width as usize)?;
        Ok(RowPool {
            width,
            taken,
            stored: 0,
            cells,
            fill,
        })
    }

    /// The number of cells of a row.
    pub fn width(&self) -> u32
        ensures width { result ≡ self.now.width }
        ensures whole { IsWhole self.now }
    {
        self.width
    }

    /// The number of rows that are not in use.
    pub fn free_rows(&self) -> u32
        ensures { result ≡ free_count self.now }
    {
        count_free(self.taken.as_slice())
    }

    /// A row that was free, and from now on is in use. None exactly where no row is free. Its cells
    /// are what they were, or what the pool's rows are filled with where it was never in use.
    #[tactic(auto, using(crate::specs::Pool::PoolLaws::count_taken))]
    pub fn take(&mut self) -> Option<Row>
        ensures none { IfNone result (self.new ≡ self.old × free_count self.old ≡ 0) }
        ensures free { IfSome result (λ row. IsFree self.old row.index) }
        ensures taken { IfSome result (λ row. self.new ≡ with_taken self.old row.index) }
        ensures in_use { IfSome result (λ row. IsTaken self.new row.index) }
        ensures others { IfSome result (λ row. (s : ℕ) → IsTaken self.old s → IsTaken self.new s) }
        ensures kept { IfSome result (λ row. (s : ℕ) → IsTaken self.old s → row_of self.new s ≡ row_of self.old s) }
        ensures whole { IsWhole self.new }
        ensures unmarked { IfSome result (λ row. row.marked ≡ false) }
        ensures count { IfSome result (λ row. free_count self.new + 1 ≡ free_count self.old) }
    {
        let index = first_free(self.taken.as_slice())?;
        let row = index as u32;
        self.taken[index] = true;
        fill_up(&mut self.cells, end_of(row, self.width), self.fill);
        self.stored = self.stored.max(row + 1);
        Some(Row {
            index: row,
            marked: false,
        })
    }

    /// Gives a row back, which from now on is free.
    #[tactic(auto, using(crate::specs::Pool::PoolLaws::count_given, crate::specs::Pool::PoolLaws::stored_given))]
    pub fn give(&mut self, row: Row)
        requires { IsTaken self.old row.index }
        ensures free { self.new ≡ with_mark self.old row.index false }
        ensures others { (s : ℕ) → s ≢ row.index → IsTaken self.old s → IsTaken self.new s }
        ensures count { free_count self.new ≡ free_count self.old + 1 }
    {
        let Row { index, marked: _ } = row;
        self.taken[index as usize] = false;
    }

    /// The cells of a row.
    #[tactic(auto, using(crate::specs::Pool::PoolLaws::row_end))]
    pub fn row(&self, at: &Row) -> &[V]
        requires { IsTaken self.now at.now.index }
        ensures { result.now ≡ row_of self.now at.now.index }
    {
        let width = self.width as usize;
        let start = at.index as usize * width;
        &self.cells.as_slice()[start..start + width]
    }

    /// The cells of a row, to be written.
    #[tactic(auto, using(crate::specs::Pool::PoolLaws::row_end))]
    pub fn row_mut(&mut self, at: &Row) -> &mut [V]
        requires { IsTaken self.old at.now.index }
        ensures* writes_back { sem 𝓛 (lends_row V.row self.entry at.now.index result) }
        ensures value { result.now ≡ row_of self.old at.now.index }
        ensures len { length result.now ≡ self.old.width }
    {
        let width = self.width as usize;
        let start = at.index as usize * width;
        self.cells.slice_mut(start..start + width)
    }

    /// Writes the cells of the row `from` into the row `to`.
    #[tactic(auto, using(crate::specs::Pool::PoolLaws::row_below, crate::specs::Pool::PoolLaws::row_end))]
    pub fn copy(&mut self, from: &Row, to: &Row)
        requires from { IsTaken self.old from.now.index }
        requires to { IsTaken self.old to.now.index }
        ensures { self.new ≡ with_row self.old to.now.index (row_of self.old from.now.index) }
    {
        let width = self.width as usize;
        let start = from.index as usize * width;
        let target = to.index as usize * width;
        copy_part(self.cells.as_mut_slice(), start, target, width);
    }
}

// Copies `width` cells from one place to another, in one piece.
fn copy_part<V: Copy>(cells: &mut [V], from: usize, to: usize, width: usize)
    requires from_within { from + width ≤ length cells.old }
    requires to_within { to + width ≤ length cells.old }
    requires below { from < to → from + width ≤ to }
    requires above { to < from → to + width ≤ from }
    ensures { cells.new ≡ take to cells.old ++ (take width (drop from cells.old) ++ drop (to + width) cells.old) }
{
    if from < to {
        let (low, high) = cells.split_at_mut(to);
        high[..width].copy_from_slice(&low[from..from + width]);
    } else if to < from {
        let (low, high) = cells.split_at_mut(from);
        low[to..to + width].copy_from_slice(&high[..width]);
    }
}

// Where a row ends.
fn end_of(row: u32, width: u32) -> usize
    ensures { result ≡ row * width + width }
{
    row as usize * width as usize + width as usize
}

// Adds a value up to a number of cells, for which there is room.
fn fill_up<V: Copy>(cells: &mut Vec<V>, end: usize, fill: V)
    requires { end ≤ vec_capacity cells.old }
    ensures cells { cells.new.items ≡ cells.old.items ++ replicate (end - length cells.old.items) fill }
    ensures room { vec_capacity cells.old ≤ vec_capacity cells.new }
{
    if cells.len() < end {
        match cells.resize(end, fill) {
            Ok(()) => {}
            Err(_) => unreachable!(),
        }
    }
}

// `count` times the same value.
fn filled<V: Copy>(alloc: Global, count: usize, fill: V) -> Result<Vec<V>, AllocError>
    ensures { IfOk result (λ all. all.items ≡ replicate count fill) }
{
    let mut all = Vec::with_capacity(alloc, count)?;
    all.resize(count, fill)?;
    Ok(all)
}

// How many of the marks are not set.
fn count_free(taken: &[bool]) -> u32
    requires { length taken.now < 2 ^ 32 }
    ensures { result ≡ count_by not taken.now }
{
    let mut count = 0;
    for is_taken in taken {
        count += u32::from(!*is_taken);
    }
    count
}

// The place of the first mark that is not set.
fn first_free(taken: &[bool]) -> Option<usize>
    ensures none { IfNone result (count_by not taken.now ≡ 0) }
    ensures free { IfSome result (λ i. slice_get taken.now i ≡ Some false) }
    ensures below { IfSome result (λ i. i < length taken.now) }
{
    for (index, is_taken) in taken.iter().enumerate() {
        if !*is_taken {
            return Some(index);
        }
    }
    None
}
