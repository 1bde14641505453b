// Laws on the variables of skeletons that change. Each is the contract of a function that does nothing.
ghost use Rattle.std.specs.Prelude.{ℕ, List, ◌++◌};
ghost use Rattle.cp_lists.specs.Lists.{IsIn};
ghost use Rattle.cp_model.specs.Term.{Term, variables_of};
ghost use Rattle.cp_model.specs.declared.variable.Variable.{Variable};
ghost use Rattle.cp_model.specs.Strand.{Role};
ghost use Rattle.cp_model.specs.declared.variable.Declaration.{Declaration};
ghost use Rattle.cp_model.specs.Skeleton.{Skeleton};
ghost use Rattle.cp_model.specs.declared.node.OrderPair.{OrderPair};
ghost use Rattle.cp_model.specs.Problem.{IsDeclared};
ghost use Rattle.cp_model.specs.PointOfView.{HasDeclaredVariables};
ghost use Rattle.cp_model.specs.Extensions.{AddsListener, IsClosedPrefix, AddsStrand, Extends};
ghost use Rattle.cp_skel.specs.Ordered.{ordered_by};

/// A skeleton all of whose variables are declared stays one under these changes: a listener is added on a term of
/// declared variables; an instance is added or grows whose role declares the variables of its prefix, and the terms for
/// its variables have declared variables; more variables are declared; the order changes.
pub fn changes_keep_declared_variables()
    ensures listener { (variables : List Declaration) (t : Term) (old new : Skeleton) → AddsListener t old new
        → ((x : Variable) → IsIn x (variables_of t) → IsDeclared variables x) → HasDeclaredVariables variables old → HasDeclaredVariables variables new }
    ensures strand { (variables : List Declaration) (role : Role) (height : ℕ) (values : List Term) (old new : Skeleton) → IsClosedPrefix role height → AddsStrand role height values old new
        → ((t : Term) (x : Variable) → IsIn t values → IsIn x (variables_of t) → IsDeclared variables x) → HasDeclaredVariables variables old → HasDeclaredVariables variables new }
    ensures extended { (variables : List Declaration) (s height : ℕ) (values : List Term) (old new : Skeleton) → (x : Extends s height values old new) → IsClosedPrefix x.role height
        → ((t : Term) (x : Variable) → IsIn t values → IsIn x (variables_of t) → IsDeclared variables x) → HasDeclaredVariables variables old → HasDeclaredVariables variables new }
    ensures more { (variables more : List Declaration) (k : Skeleton) → HasDeclaredVariables variables k → HasDeclaredVariables (variables ++ more) k }
    ensures order { (variables : List Declaration) (k : Skeleton) (pairs : List OrderPair) → HasDeclaredVariables variables k → HasDeclaredVariables variables (ordered_by k pairs) }
{}
