ghost use Rattle.std.specs.Prelude.{◌≡◌, OnOk, IfOk, IfErr};
ghost use Rattle.search.specs.Checks.{needed_rows, RequestPasses, RequestCause, ChecksPass, FirstCause};

use subject::refusal::Refusal;
use subject::run::{MOST_BOUND, Request};
use subject::site::Site;

/// How many rows of each sort are lent: cell rows, queue rows and run rows.
#[derive(Clone, Copy, Debug, PartialEq, Eq)]
pub struct RowCounts {
    pub cells: usize,
    pub queue: usize,
    pub run: usize,
}

/// Whether the start and the end are places, of so many, and the bound is 1 to 1,000; or the first cause that is not so.
pub fn check_request(places: usize, request: Request) -> Result<(), Refusal>
    ensures ok { OnOk result (RequestPasses places request) }
    ensures err { IfErr result (λ e. RequestCause places request e) }
{
    if request.start >= places || request.end >= places {
        return Err(Refusal::NoSuchPlace);
    }
    if request.bound == 0 || request.bound > MOST_BOUND {
        return Err(Refusal::WrongBound);
    }
    Ok(())
}

/// How many rows of each sort a search for the request needs, or the first cause that speaks against it.
pub fn rows_needed<S: Site>(site: &S, request: Request, counts: RowCounts) -> Result<usize, Refusal>
    ensures ok { OnOk result (ChecksPass (S.Site.meaning site.now).places request counts) }
    ensures rows { IfOk result (λ n. n ≡ needed_rows (S.Site.meaning site.now).places request) }
    ensures err { IfErr result (λ e. FirstCause (S.Site.meaning site.now).places request counts e) }
{
    let places = site.places();
    check_request(places, request)?;
    let rows = places * (request.bound + 1);
    if counts.cells < rows || counts.queue < rows || counts.run < rows {
        return Err(Refusal::TooFewRows);
    }
    Ok(rows)
}
