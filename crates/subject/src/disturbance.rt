ghost use Rattle.std.specs.Prelude.{◌≡◌};
ghost use Rattle.std.proofs.Common.{rules};
ghost use Rattle.subject.specs.Charges.{ByMeaning};
ghost use Rattle.subject.specs.Grades.{grade_meaning, no_grade, greater_of, grade_no_more};

use crate::charge::Charge;

/// How much the work disturbs the house: a grade from 0 to 255. Joining takes the greater.
#[derive(Clone, Copy, Debug)]
pub struct Disturbance {
    pub grade: u8,
}

impl Charge for Disturbance {
    ghost meaning = { grade_meaning };

    ghost nothing = { no_grade };

    ghost join = { greater_of };

    ghost no_more = { grade_no_more };

    ghost laws = { unfold ByMeaning in Prim.search rules };

    fn nothing() -> Disturbance {
        Disturbance { grade: 0 }
    }

    fn join(self, other: Disturbance) -> Disturbance {
        Disturbance {
            grade: self.grade.max(other.grade),
        }
    }

    fn no_more(&self, other: &Disturbance) -> bool {
        self.grade <= other.grade
    }
}
