ghost use Rattle.std.specs.Prelude.{◌≡◌, ℕ, ◌<◌, IfOk, false, vec_len, slice_index_or};
ghost use Rattle.subject.specs.declared.site.TheConstants.{MOST_WAYS};

use std::alloc::{AllocError, Global};
use subject::refusal::Refusal;
use subject::site::{MOST_WAYS, Site};
use subject::way::Way;

/// A site with some of its ways closed for the while.
///
/// A job stands over any site, is a site again, and keeps closed marks of its own: one for each way number that a site can
/// have, so that a closing takes no memory. All its memory is taken when it is made.
#[derive(Drop)]
pub struct Job<S> {
    pub(crate) below: S,
    pub(crate) closed: Vec<bool>,
    ghost full: { vec_len closed ≡ MOST_WAYS },
}

/// The site below, with the closed ways shut.
impl<S: Site> Site for Job<S> {
    ghost use Rattle.job.specs.Bounds.{shutting_bounded};
    ghost use Rattle.job.specs.Jobs.{site_below, closed_by, shutting};

    type Charge = S::Charge;

    ghost meaning = { λ j. shutting (S.Site.meaning (site_below j)) (closed_by j) };

    ghost is_bounded = { λ j. shutting_bounded (S.Site.meaning (site_below j)) (closed_by j) (S.Site.is_bounded (site_below j)) };

    fn places(&self) -> usize {
        self.below.places()
    }

    fn ways(&self) -> usize {
        self.below.ways()
    }

    fn repeater(&self, place: usize) -> Option<S::Charge> {
        self.below.repeater(place)
    }

    fn way(&self, number: usize) -> Option<Way<S::Charge>> {
        if self.is_closed(number) {
            None
        } else {
            self.below.way(number)
        }
    }
}

impl<S> Job<S> {
    ghost use Rattle.job.specs.Jobs.{closed_by};

    /// Whether the job has closed a way.
    pub fn is_closed(&self, way: usize) -> bool
        ensures { result ≡ closed_by self.now way }
    {
        self.closed.get(way).copied().unwrap_or(false)
    }
}

// A mark for each way number that a site can have, all of them open.
fn open_marks(alloc: Global) -> Result<Vec<bool>, AllocError>
    ensures full { IfOk result (λ v. vec_len v ≡ MOST_WAYS) }
    ensures open { IfOk result (λ v. (n : ℕ) → slice_index_or v.items n false ≡ false) }
{
    vec![in alloc; false; MOST_WAYS]
}

impl<S: Site + Drop> Job<S> {
    ghost use Rattle.job.specs.Jobs.{site_below, closed_by};

    /// A job over a site, with no way closed. It takes the memory for all its marks.
    pub fn new(alloc: Global, site: S) -> Result<Job<S>, AllocError>
        ensures below { IfOk result (λ j. site_below j ≡ site) }
        ensures open { IfOk result (λ j. (n : ℕ) → closed_by j n ≡ false) }
    {
        let closed = open_marks(alloc)?;
        Ok(Job {
            below: site,
            closed,
        })
    }
}

impl<S: Site> Job<S> {
    ghost use Rattle.job.specs.Book.{closing, reopening, after_closing, after_reopening};
    ghost use Rattle.job.specs.Jobs.{site_below, closed_by, way_count};

    /// Closes a way that this job has not closed. Refused are a number that is not below the number of ways, and then a way
    /// that is closed already; then nothing changes.
    pub fn close(&mut self, way: usize) -> Result<(), Refusal>
        ensures below { site_below self.new ≡ site_below self.old }
        ensures answer { result ≡ closing (way_count S.Site self.old) (closed_by self.old) way }
        ensures marks { (n : ℕ) → closed_by self.new n ≡ after_closing (way_count S.Site self.old) (closed_by self.old) way n }
    {
        if way >= self.below.ways() {
            return Err(Refusal::NoSuchWay);
        }
        if self.is_closed(way) {
            return Err(Refusal::AlreadyClosed);
        }
        self.closed[way] = true;
        Ok(())
    }

    /// Reopens a way that this job has closed. Refused are a number that is not below the number of ways, and then a way
    /// that this job has not closed; then nothing changes.
    pub fn reopen(&mut self, way: usize) -> Result<(), Refusal>
        ensures below { site_below self.new ≡ site_below self.old }
        ensures answer { result ≡ reopening (way_count S.Site self.old) (closed_by self.old) way }
        ensures marks { (n : ℕ) → closed_by self.new n ≡ after_reopening (way_count S.Site self.old) (closed_by self.old) way n }
    {
        if way >= self.below.ways() {
            return Err(Refusal::NoSuchWay);
        }
        if !self.is_closed(way) {
            return Err(Refusal::NotClosed);
        }
        self.closed[way] = false;
        Ok(())
    }
}
