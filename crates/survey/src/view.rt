ghost use Rattle.std.specs.Prelude.{◌≡◌, ℕ};
ghost use Rattle.subject.specs.Moneys.{of_cents};
ghost use Rattle.subject.specs.Grades.{of_grade};
ghost use Rattle.survey.specs.declared.entry.WayEntry.{WayEntry as Entered};
ghost use Rattle.survey.specs.Sealing.{sealed_contents};
ghost use Rattle.survey.specs.SurveySite.{survey_site, view_contents, entry_loss, open_way};
ghost use Rattle.survey.specs.SiteBounds.{sealed_bounded};

use crate::card;
use crate::entry::WayEntry;
use crate::sealed::Sealed;
use std::marker::PhantomData;
use subject::charge::Charge;
use subject::disturbance::Disturbance;
use subject::money::Money;
use subject::site::Site;
use subject::way::Way;

/// A charge kind in which a sealed survey answers.
pub trait Charged: Charge {
    // what a way is charged
    ghost of_way: { Entered → Self };

    // what a repeater with a price is charged
    ghost of_repeater: { ℕ → Self };

    /// What a way is charged.
    fn of_way(entry: WayEntry) -> Self
        ensures { result ≡ of_way entry };

    /// What a repeater is charged that has a price in cents.
    fn of_repeater(price: u32) -> Self
        ensures { result ≡ of_repeater price };
}

/// For money a way charges its price, and a repeater its own.
impl Charged for Money {
    ghost of_way = { λ w. of_cents w.price };

    ghost of_repeater = { of_cents };

    fn of_way(entry: WayEntry) -> Money {
        Money {
            cents: entry.price as u64,
        }
    }

    fn of_repeater(price: u32) -> Money {
        Money {
            cents: price as u64,
        }
    }
}

/// For disturbance a way charges its grade, and a repeater grade 0.
impl Charged for Disturbance {
    ghost of_way = { λ w. of_grade w.grade };

    ghost of_repeater = { λ _. of_grade 0 };

    fn of_way(entry: WayEntry) -> Disturbance {
        Disturbance { grade: entry.grade }
    }

    fn of_repeater(_price: u32) -> Disturbance {
        Disturbance { grade: 0 }
    }
}

/// A sealed survey as a site, for a charge kind.
#[derive(Clone, Copy)]
pub struct SurveyView<'a, K> {
    survey: &'a Sealed,
    kind: PhantomData<K>,
}

/// A sealed survey as a site for money.
pub type MoneyView<'a> = SurveyView<'a, Money>;

/// A sealed survey as a site for disturbance.
pub type DisturbanceView<'a> = SurveyView<'a, Disturbance>;

impl<'a, K: Charged> SurveyView<'a, K> {
    /// The site over a sealed survey.
    pub fn over(survey: &'a Sealed) -> SurveyView<'a, K>
        ensures { view_contents result ≡ sealed_contents survey.now }
    {
        SurveyView {
            survey,
            kind: PhantomData,
        }
    }
}

impl<'a, K: Charged> Site for SurveyView<'a, K> {
    type Charge = K;

    ghost meaning = { λ v. survey_site K.Charged.of_way K.Charged.of_repeater (view_contents v) };

    ghost is_bounded = { λ v. sealed_bounded K.Charged.of_way K.Charged.of_repeater v.survey.now };

    fn places(&self) -> usize {
        self.survey.places()
    }

    fn ways(&self) -> usize {
        self.survey.ways()
    }

    fn repeater(&self, place: usize) -> Option<K> {
        let price = self.survey.place(place)?.repeater?;
        Some(K::of_repeater(price))
    }

    fn way(&self, number: usize) -> Option<Way<K>> {
        let entry = self.survey.way(number)?;
        Some(open_way(entry, K::of_way(entry)))
    }
}

// The loss of a way that was entered, by the loss card.
fn loss_of(entry: WayEntry) -> u16
    ensures { result ≡ entry_loss entry }
{
    card::loss(entry.letter, entry.metres).unwrap_or(0)
}

// A way that was entered, as a way of a site, with the charge that it has there.
fn open_way<C: Copy>(entry: WayEntry, charge: C) -> Way<C>
    ensures { result ≡ open_way entry charge }
{
    Way {
        from: entry.from as usize,
        to: entry.to as usize,
        charge,
        loss: loss_of(entry),
    }
}
