ghost use Rattle.std.specs.Prelude.{◌≡◌, ℕ, ◌∷◌, ◌<◌, length};
ghost use Rattle.dirac_rows.specs.Answers.{AnswerRows};

/// Takes the first item of a list.
pub fn take_first<T: Drop>(items: &mut Vec<T>) -> T
    requires { 0 < length items.old.items }
    ensures { items.old.items ≡ result ∷ items.new.items }
{
    items.remove(0)
}

/// The answers on three rows.
#[tactic(auto, using(crate::proofs::Triples::three_answers))]
pub fn three_of<T: Drop>(mut answers: Vec<T>) -> (T, T, T)
    requires { length answers.items ≡ 3 }
    ensures { (f : ℕ → T) → AnswerRows (λ r x. x ≡ f r) 3 answers.items → result ≡ (f 0, f 1, f 2) }
{
    let first = take_first(&mut answers);
    let second = take_first(&mut answers);
    let third = take_first(&mut answers);
    (first, second, third)
}
