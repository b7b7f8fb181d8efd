ghost use Rattle.std.specs.Prelude.{◌≡◌, Bool};
ghost use Rattle.subject.specs.Charges.{Laws};

/// What a way or a repeater adds to a run.
///
/// A charge kind has a charge called nothing, a joining of two charges, and a comparison "no more than", under five laws.
/// Joining need not be associative: totals are joined from left to right. Charges lie in rows of the caller, so a charge
/// carries no invariant: one that holds more than the largest figure of its kind means that figure, and the laws speak
/// of what charges mean.
pub trait Charge: Copy {
    // what a charge means, as the charge of that meaning that holds no excess
    ghost meaning: { Self → Self };

    // the charge called nothing
    ghost nothing: { Self };

    // the first charge with the second joined to it
    ghost join: { Self → Self → Self };

    // whether the first charge is no more than the second
    ghost no_more: { Self → Self → Bool };

    /// The charge called nothing.
    fn nothing() -> Self
        ensures { result ≡ nothing };

    /// This charge with another joined to it.
    fn join(self, other: Self) -> Self
        ensures { result ≡ join self other };

    /// Whether this charge is no more than another.
    fn no_more(&self, other: &Self) -> bool
        ensures { result ≡ no_more self.now other.now };

    ghost laws: { Laws (record { meaning = meaning; nothing = nothing; join = join; no_more = no_more }) };
}
