//! The index of the ways by the place that they leave, kept inside the rows of working memory.
ghost use Rattle.std.specs.Prelude.{◌≡◌, ℕ, ◌+◌, ◌<◌, ◌≤◌, min, length, slice_index_or, slice_set};
ghost use Rattle.search.specs.Columns.{cells_of, heads_of, nexts_of};
ghost use Rattle.search.specs.Index.{IsIndexed};

use search::cell::CellRow;
use subject::site::Site;

// Puts the way `n` before the ways that leave the place `at`.
fn put_first<C>(cells: &mut [CellRow<C>], at: usize, n: u16)
    requires place { at < length cells.old }
    requires way { n < length cells.old }
    ensures cells { cells_of cells.new ≡ cells_of cells.old }
    ensures heads { heads_of cells.new ≡ slice_set (heads_of cells.old) at (Some n) }
    ensures nexts { nexts_of cells.new ≡ slice_set (nexts_of cells.old) n (slice_index_or (heads_of cells.old) at None) }
{
    cells[n as usize].next = cells[at].head;
    cells[at].head = Some(n);
}

// Enters the way `n` into an index of the ways below it.
fn enter_way<S: Site>(site: &S, cells: &mut [CellRow<S::Charge>], n: usize)
    requires inside { n < length cells.old }
    requires places { (S.Site.meaning site.now).places ≤ length cells.old }
    requires indexed { IsIndexed (S.Site.meaning site.now) (heads_of cells.old) (nexts_of cells.old) n }
    ensures cells { cells_of cells.new ≡ cells_of cells.old }
    ensures indexed { IsIndexed (S.Site.meaning site.now) (heads_of cells.new) (nexts_of cells.new) (n + 1) }
{
    if let Some(w) = site.way(n) {
        put_first(cells, w.from, n as u16);
    }
}

/// Enters all ways into an empty index, as far as there are rows for their numbers.
pub fn build<S: Site>(site: &S, cells: &mut [CellRow<S::Charge>])
    requires places { (S.Site.meaning site.now).places ≤ length cells.old }
    requires empty { (p : ℕ) → slice_index_or (heads_of cells.old) p None ≡ None }
    ensures cells { cells_of cells.new ≡ cells_of cells.old }
    ensures indexed { let m = S.Site.meaning site.now in
        IsIndexed m (heads_of cells.new) (nexts_of cells.new) (min m.ways (length cells.old)) }
{
    let limit = site.ways().min(cells.len());
    for n in 0..limit {
        enter_way(site, cells, n);
    }
}
