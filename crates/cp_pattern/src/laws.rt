// Laws of matching and of unification. Each is the contract of a function that does nothing.
ghost use Rattle.std.specs.Prelude.{◌≡◌, ℕ, false};
ghost use Rattle.cp_model.specs.Term.{Term, Substitution, apply_to, composed};
ghost use Rattle.cp_model.specs.Tree.{Pattern};
ghost use Rattle.cp_theory.specs.Matches.{Matches};
ghost use Rattle.cp_pattern.specs.Candidates.{may_equal};
ghost use Rattle.cp_pattern.specs.Opened.{opened_pattern};
ghost use Rattle.cp_pattern.specs.Unifiers.{UnifiesMostGenerally, NeverEqual};

/// If a pattern matches a term, it still matches after any further substitution.
pub fn matching_stays()
    ensures { (p : Pattern) (s u : Substitution) (e : Term) → Matches p s e → Matches p (composed s u) (apply_to u e) }
{}

/// If a substitution unifies a term with an opened pattern, the pattern matches the term under it.
pub fn unifiers_match()
    ensures { (p : Pattern) (s u : Substitution) (n : ℕ) (e : Term) → apply_to u e ≡ apply_to u (opened_pattern p s n)
        → Matches p (composed s u) (apply_to u e) }
{}

/// If `may_equal` is false of two terms, no values make them equal.
pub fn others_are_never_equal()
    ensures { (c t : Term) → may_equal c t ≡ false → NeverEqual t c }
{}

/// Two terms have only one most general unifier that maps later variables to earlier ones: any two such unifiers agree on every
/// term.
pub fn most_general_unifiers_are_determined()
    ensures { (a b : Term) (s t : Substitution) → UnifiesMostGenerally a b s → UnifiesMostGenerally a b t
        → (u : Term) → apply_to s u ≡ apply_to t u }
{}
