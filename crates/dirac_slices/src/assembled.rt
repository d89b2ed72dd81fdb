ghost use Rattle.std.specs.Prelude.{◌≡◌, ℕ, length};
ghost use Rattle.dirac_common.specs.Table.{Table};
ghost use Rattle.dirac_rows.specs.Answers.{AnswerRows};

use dirac_common::{Picture, Plane};
use dirac_rows::three_of;

/// The picture of the planes Y, U, V.
pub(crate) fn assembled(number: u32, planes: Vec<Plane>) -> Picture
    requires { length planes.items ≡ 3 }
    ensures { (f : ℕ → Table) → AnswerRows (λ r t. t ≡ f r) 3 planes.items → result ≡ record {
      number = number;
      y = f 0;
      u = f 1;
      v = f 2;
    } }
{
    let (y, u, v) = three_of(planes);
    Picture { number, y, u, v }
}
