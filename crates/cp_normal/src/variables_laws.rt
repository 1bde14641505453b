// Laws about the variables of normal forms. Each is the contract of a function that does nothing.
ghost use Rattle.std.specs.Prelude.{List};
ghost use Rattle.cp_lists.specs.Lists.{IsIn};
ghost use Rattle.cp_model.specs.Term.{variable_term, variables_of, Substitution, apply_to};
ghost use Rattle.cp_model.specs.declared.variable.Variable.{Variable};
ghost use Rattle.cp_model.specs.declared.variable.Declaration.{Declaration};
ghost use Rattle.cp_model.specs.Skeleton.{Skeleton};
ghost use Rattle.cp_model.specs.Problem.{IsDeclared};
ghost use Rattle.cp_model.specs.PointOfView.{HasDeclaredVariables};
ghost use Rattle.cp_theory.specs.Normal.{skeleton_under};
ghost use Rattle.cp_collapse.specs.SameSkeletons.{SaysTheSame};
ghost use Rattle.cp_normal.specs.BySubstitution.{all_variables, ComesBySubstitution};
ghost use Rattle.cp_normal.specs.Exact.{HasForms};

/// A skeleton has declared variables under a substitution that maps declared variables to terms of declared variables, if it has
/// before; and under any substitution that maps each of its own variables to such a term. A skeleton that says the same as one
/// with declared variables has them too.
pub fn substitutions_keep_declared_variables()
    ensures under { (variables : List Declaration) (s : Substitution) (k : Skeleton) → ((x y : Variable) → IsDeclared variables x → IsIn y (variables_of (apply_to s (variable_term x))) → IsDeclared variables y)
        → HasDeclaredVariables variables k → HasDeclaredVariables variables (skeleton_under s k) }
    ensures given { (variables : List Declaration) (s : Substitution) (k : Skeleton) → ((x y : Variable) → IsIn x (all_variables k) → IsIn y (variables_of (apply_to s (variable_term x))) → IsDeclared variables y)
        → HasDeclaredVariables variables (skeleton_under s k) }
    ensures agreeing { (variables : List Declaration) (k l : Skeleton) → SaysTheSame k l → HasDeclaredVariables variables k → HasDeclaredVariables variables l }
{}

/// Normal forms bring in no new variables, nor does any skeleton that comes from another by one substitution.
pub fn normal_forms_have_declared_variables()
    ensures forms { (variables : List Declaration) (k r : Skeleton) (rs : List Skeleton) → HasForms k rs → HasDeclaredVariables variables k → IsIn r rs → HasDeclaredVariables variables r }
    ensures by_substitution { (variables : List Declaration) (k r : Skeleton) → ComesBySubstitution k r → HasDeclaredVariables variables k → HasDeclaredVariables variables r }
{}
