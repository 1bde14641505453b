// Laws of well-formed input.
ghost use Rattle.std.specs.Prelude.{◌≡◌, ◌<◌, ℕ, List, [], Some};
ghost use Rattle.cp_language.specs.Input.{Entry, stated, faults_of, input_of};
ghost use Rattle.cp_language.specs.Problems.{Problem, role_named};
ghost use Rattle.cp_language.specs.Roles.{role_of, protocol_of};
ghost use Rattle.cp_language.specs.Terms.{variable_named};
ghost use Rattle.cp_lists.specs.Lists.{item_at, IsIn};
ghost use Rattle.cp_model.specs.Problem.{IsDeclared};
ghost use Rattle.cp_model.specs.PointOfView.{IsPointOfView};
ghost use Rattle.cp_model.specs.Skeleton.{IsSkeleton};
ghost use Rattle.cp_model.specs.Strand.{Role, variables_of_trace};
ghost use Rattle.cp_model.specs.declared.variable.Declaration.{Declaration};
ghost use Rattle.cp_model.specs.declared.variable.Variable.{Variable};
ghost use Rattle.cp_sexpr.specs.Syntax.{Form, Forms};
ghost use Rattle.cp_language.specs.Example.{example_input};
ghost use Rattle.cp_language.specs.Role.{IsWellFormedRole};

/// Each problem of well-formed input is a skeleton over its protocol, with the problem's variables. It maps to itself: each strand and each variable
/// goes to itself, and all variables that occur in it are its own. The pairs that it states are its pairs.
#[tactic(auto, using(crate::proofs::Problems::are_skeletons))]
pub fn problems_of_input_are_skeletons()
    ensures skeletons { (fs : Forms) (e : Entry) (p : Problem) → faults_of fs ≡ [] → IsIn e (input_of fs) → stated e ≡ Some p → IsSkeleton p.protocol p.skeleton }
    ensures variables { (fs : Forms) (e : Entry) (p : Problem) → faults_of fs ≡ [] → IsIn e (input_of fs) → stated e ≡ Some p → p.skeleton.variables ≡ p.variables }
    ensures own { (fs : Forms) (e : Entry) (p : Problem) → faults_of fs ≡ [] → IsIn e (input_of fs) → stated e ≡ Some p → IsPointOfView p.variables p.skeleton }
    ensures pairs { (fs : Forms) (e : Entry) (p : Problem) → faults_of fs ≡ [] → IsIn e (input_of fs) → stated e ≡ Some p → p.skeleton.from_problem.pairs ≡ p.skeleton.pairs }
{}

/// The roles of the protocols of these problems are well formed: each identifier names its own variable, all variables
/// that occur are declared, and unique values originate in the trace.
#[tactic(auto, using(crate::proofs::Problems::roles_are_well_formed))]
pub fn roles_of_input_are_well_formed()
    ensures { (fs : Forms) (e : Entry) (p : Problem) (r : Role) → faults_of fs ≡ [] → IsIn e (input_of fs) → stated e ≡ Some p → IsIn r p.protocol.roles → IsWellFormedRole r }
{}

/// Each role that forms state declares the variables of its events, whatever faults the forms have: the message of an
/// event with faults has no variables.
pub fn roles_declare_their_variables()
    ensures role { (items : List Form) (x : Variable) → IsIn x (variables_of_trace (role_of items).trace) → IsDeclared (role_of items).variables x }
    ensures protocol { (items : List Form) (r : Role) → IsIn r (protocol_of items).roles → (x : Variable) → IsIn x (variables_of_trace r.trace) → IsDeclared r.variables x }
{}

/// A name in well-formed input names one thing: a role's name names one role of its protocol, and an identifier that a
/// problem declares names one of the problem's variables.
#[tactic(auto, using(crate::proofs::Problems::roles_found, crate::proofs::Problems::variables_found))]
pub fn names_of_input_are_their_own()
    ensures roles { (fs : Forms) (e : Entry) (p : Problem) (r : Role) → faults_of fs ≡ [] → IsIn e (input_of fs) → stated e ≡ Some p → IsIn r p.protocol.roles → role_named p.protocol.roles r.name ≡ Some r }
    ensures variables { (fs : Forms) (e : Entry) (p : Problem) (n : ℕ) (d : Declaration) → faults_of fs ≡ [] → IsIn e (input_of fs) → stated e ≡ Some p → n < p.declared → item_at p.variables n ≡ Some d → variable_named p.variables d.identifier ≡ Some (record { sort = d.sort; number = n }) }
{}

/// Some input meets the premises of the laws above: it is well formed and states a problem with two instances, a
/// listener, assumptions of each kind, and a pair.
#[tactic(auto, using(crate::proofs::Example::is_well_formed))]
pub fn well_formed_example()
    ensures well_formed { faults_of example_input ≡ [] }
    ensures stated { (e : Entry) × (p : Problem) × IsIn e (input_of example_input) × (stated e ≡ Some p) }
{}
