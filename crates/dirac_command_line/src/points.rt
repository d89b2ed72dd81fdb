ghost use Rattle.std.specs.Prelude.{◌≡◌, ◌&&◌, is_none, is_some};
ghost use Rattle.dirac_command_line.specs.Options.{point_in as point_read};

use crate::options::point_in;

/// The points of a cut that words say: `--from=` and `--to=`, each at most once.
#[derive(Clone, Copy, Debug, PartialEq, Eq)]
pub struct Points {
    pub from: Option<u64>,
    pub to: Option<u64>,
}

impl Points {
    ghost use Rattle.dirac_command_line.specs.Points.{none_given, points_with};

    /// No word said one.
    pub fn none() -> Points
        ensures { result ≡ none_given }
    {
        Points {
            from: None,
            to: None,
        }
    }

    /// The points behind one word more, where it says one that none before it says.
    pub fn with(self, word: &str) -> Option<Points>
        ensures { result ≡ points_with self word.now }
    {
        if is_new("--from=", word, self.from) {
            let from = point_in("--from=", word);
            return Some(Points { from, to: self.to });
        }
        if is_new("--to=", word, self.to) {
            let to = point_in("--to=", word);
            return Some(Points {
                from: self.from,
                to,
            });
        }
        None
    }
}

// Whether a word gives a point behind this front, and none is given yet.
fn is_new(front: &str, word: &str, given: Option<u64>) -> bool
    ensures { result ≡ (is_some (point_read front.now word.now) && is_none given) }
{
    point_in(front, word).is_some() && given.is_none()
}
