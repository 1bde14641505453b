// Maplets: where they do not fit, and the terms that they give.
ghost use Rattle.std.specs.Prelude.{◌≡◌, ◌&&◌, [], ◌∷◌, map, option_map, not, IfOk, OnOk};
ghost use Rattle.cp_sexpr.specs.View.{view};
ghost use Rattle.cp_language.specs.Words.{is_one_of};
ghost use Rattle.cp_language.specs.Terms.{variable_named};
ghost use Rattle.cp_language.specs.Problems.{is_known};
ghost use Rattle.cp_report.specs.Misfits.{symbol_misfits, entries_misfits, list_misfits};
ghost use Rattle.cp_report.specs.Spelled.{value_misfits};
ghost use Rattle.cp_report.specs.Skeletons.{identifier_of, maplet_misfits, maplets_misfits, are_mapped, mapping_misfits, value_mapped, values_mapped};
ghost use Rattle.cp_spelled.specs.FirstMisfit.{first_onto};
ghost use Rattle.cp_spelled.specs.Own.{value_of_item};
ghost use Rattle.cp_spelled.specs.Views.{scope_view};

use crate::misfits::value_misfits;
use crate::scope::Scope;
use crate::terms::term_or_tag;
use crate::{FirstMisfit, Variables, identifier_of, no_more, second};
use cp_base::Place;
use cp_scope::{NameSet, Variable, item_at, list_items, no_term, place_of, symbol_or_empty};
use cp_sexpr::Form;
use cp_strand::Declaration;
use cp_term::Term;
use std::alloc::{AllocError, Global};

/// The form must be the identifier of a wanted variable that was not mapped before.
fn identifier_misfits(wanted: &Variables, before: &NameSet, form: &Form, first: &mut FirstMisfit)
    ensures { first.new ≡ first_onto first.old
        (symbol_misfits (λ t. is_known (variable_named wanted.now t) && not (is_one_of t before.now)) (view form.now)) }
{
    let Form::Symbol(place, identifier) = form else {
        first.note(place_of(form));
        return;
    };
    first.note_unless(
        wanted.has(identifier.as_bytes()) && !before.has(identifier.as_str()),
        *place,
    );
}

/// The items of the list at this place must be one term, of the sort of the variable if there is one.
fn one_value_misfits(
    scope: Scope<'_>,
    variable: Option<Variable>,
    place: Place,
    items: &[Form],
    first: &mut FirstMisfit,
)
    ensures { first.new ≡ first_onto first.old (entries_misfits
        (value_misfits (scope_view scope.entry) variable ∷ []) place (map view items.now)) }
{
    let Some((term, rest)) = items.split_first() else {
        first.note(place);
        return;
    };
    value_misfits(scope, variable, term, first);
    no_more(rest, first);
}

/// The items of the list at this place must be the identifier of a wanted variable and a term of its sort.
fn maplet_entries_misfits(
    scope: Scope<'_>,
    wanted: &Variables,
    before: &NameSet,
    place: Place,
    items: &[Form],
    first: &mut FirstMisfit,
)
    ensures { first.new ≡ first_onto first.old
        (maplet_misfits (scope_view scope.entry) wanted.now before.now place (map view items.now)) }
{
    let Some((identifier, rest)) = items.split_first() else {
        first.note(place);
        return;
    };
    let variable = wanted.named(symbol_or_empty(identifier));
    identifier_misfits(wanted, before, identifier, first);
    one_value_misfits(scope, variable, place, rest, first);
}

/// The form must be a list that is a maplet of a wanted variable.
fn maplet_misfits(
    scope: Scope<'_>,
    wanted: &Variables,
    before: &NameSet,
    form: &Form,
    first: &mut FirstMisfit,
)
    ensures { first.new ≡ first_onto first.old
        (list_misfits (maplet_misfits (scope_view scope.entry) wanted.now before.now) (view form.now)) }
{
    let Form::List(place, items) = form else {
        first.note(place_of(form));
        return;
    };
    maplet_entries_misfits(scope, wanted, before, *place, items.as_slice(), first);
}

/// The forms must be maplets of wanted variables, each mapped once. Returns the identifiers at their start.
fn maplets_misfits(
    alloc: Global,
    scope: Scope<'_>,
    wanted: &Variables,
    maplets: &[Form],
    first: &mut FirstMisfit,
) -> Result<NameSet, AllocError>
    ensures misfits { OnOk result (first.new ≡ first_onto first.old
        (maplets_misfits (scope_view scope.entry) wanted.now [] (map view maplets.now))) }
    ensures mapped { IfOk result (λ names. names ≡ map identifier_of (map view maplets.now)) }
{
    let mut mapped = NameSet::new(alloc);
    for maplet in maplets {
        maplet_misfits(scope, wanted, &mapped, maplet, first);
        let identifier = identifier_of(alloc, maplet)?;
        mapped.push(alloc, identifier)?;
    }
    Ok(mapped)
}

/// Whether each of the wanted variables is among those that are mapped.
fn are_mapped(wanted: &[Declaration], mapped: &NameSet) -> bool
    ensures { result ≡ are_mapped wanted.now mapped.now }
{
    for declaration in wanted {
        if !mapped.has(declaration.identifier.as_str()) {
            return false;
        }
    }
    true
}

/// The maplets of a list at this place must map each of the wanted variables once, and no other.
pub fn mapping_misfits(
    alloc: Global,
    scope: Scope<'_>,
    wanted: &Variables,
    place: Place,
    maplets: &[Form],
    first: &mut FirstMisfit,
) -> Result<(), AllocError>
    ensures { OnOk result (first.new ≡ first_onto first.old
        (mapping_misfits (scope_view scope.entry) wanted.now place (map view maplets.now))) }
{
    let mut inner = FirstMisfit::new();
    let mapped = maplets_misfits(alloc, scope, wanted, maplets, &mut inner)?;
    inner.note_unless_misfit(are_mapped(wanted.as_slice(), &mapped), place);
    first.merge(inner);
    Ok(())
}

/// The identifiers at the start of maplets.
fn identifiers_of(alloc: Global, maplets: &[Form]) -> Result<NameSet, AllocError>
    ensures { IfOk result (λ names. names ≡ map identifier_of (map view maplets.now)) }
{
    let mut identifiers = NameSet::new(alloc);
    for maplet in maplets {
        let identifier = identifier_of(alloc, maplet)?;
        identifiers.push(alloc, identifier)?;
    }
    Ok(identifiers)
}

/// The term of a maplet, or a placeholder if there is no maplet.
fn item_value(alloc: Global, scope: Scope<'_>, maplet: Option<&Form>) -> Result<Term, AllocError>
    ensures { IfOk result (λ t. t ≡ value_of_item (scope_view scope.entry) (option_map (λ f. view f.now) maplet.entry)) }
{
    match maplet {
        Some(maplet) => term_or_tag(alloc, scope, second(list_items(maplet))),
        None => no_term(alloc),
    }
}

/// The term that maplets with these identifiers give to one of them.
fn value_mapped(
    alloc: Global,
    scope: Scope<'_>,
    maplets: &[Form],
    identifiers: &NameSet,
    identifier: &str,
) -> Result<Term, AllocError>
    ensures { IfOk result (λ t. identifiers.now ≡ map identifier_of (map view maplets.now)
        → t ≡ value_mapped (scope_view scope.entry) identifier.now (map view maplets.now)) }
{
    let Some(place) = identifiers.place_of(identifier) else {
        return no_term(alloc);
    };
    item_value(alloc, scope, item_at(maplets, place))
}

/// The terms that maplets give to these variables, in the order of the variables.
pub fn values_mapped(
    alloc: Global,
    scope: Scope<'_>,
    maplets: &[Form],
    wanted: &[Declaration],
) -> Result<Vec<Term>, AllocError>
    ensures { IfOk result (λ v. v.items ≡ values_mapped (scope_view scope.entry) (map view maplets.now) wanted.now) }
{
    let identifiers = identifiers_of(alloc, maplets)?;
    wanted
        .iter()
        .map(|declaration| {
            let identifier = declaration.identifier.as_str();
            value_mapped(alloc, scope, maplets, &identifiers, identifier)
        })
        .try_collect(alloc)
}
