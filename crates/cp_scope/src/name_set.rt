// Names in use, found by the first place at which each stands.
ghost use Rattle.std.specs.Prelude.{◌≡◌, ◌++◌, ◌∷◌, [], ℕ, List, length, IfOk, IfSome, OnOk, OnErr};
ghost use Rattle.std.specs.HashMap.{get_by};
ghost use Rattle.std.specs.Str.{bytes_eq};
ghost use Rattle.cp_language.specs.Words.{is_one_of};
ghost use Rattle.cp_scope.specs.Places.{place_from, ArePlacesOf};

use cp_term::Text;
use std::alloc::{AllocError, Global};
use std::collections::HashMap;
use std::marker::Model;

/// So many names are looked through one by one; where there are more, a table has their places.
const FEW: usize = 16;

/// Names in order. Where there are many, with a table of the first place at which each stands.
#[derive(Drop)]
pub struct NameSet {
    names: Vec<Text>,
    places: Option<HashMap<Vec<u8>, usize>>,
}

impl Model for NameSet {
    ghost use Rattle.std.specs.Prelude.{ℕ, List, IfSome};

    ghost Value = { List (List ℕ) };

    ghost use Rattle.cp_scope.specs.Places.{ArePlacesOf};

    ghost view = { λ t. t.names.items };

    ghost invariant = { λ t. IfSome t.places (λ table. ArePlacesOf t.names.items table) };
}

/// The first place at which the name stands among these, from 0.
fn first_place(names: &[Text], name: &str) -> Option<usize>
    ensures { result ≡ place_from 0 names.now name.now }
{
    for (place, other) in names.iter().enumerate() {
        if name == other.as_str() {
            return Some(place);
        }
    }
    None
}

/// The place that the table has for the name.
fn place_in(places: &HashMap<Vec<u8>, usize>, name: &str) -> Option<usize>
    ensures { result ≡ get_by (λ k. bytes_eq name.now k.items) places.now }
{
    match places.get(name.as_bytes()) {
        Some(place) => Some(*place),
        None => None,
    }
}

/// Puts the place of a name that follows others into their table, unless it stands among them. On an error nothing has
/// changed.
fn put_place(
    name: Vec<u8>,
    place: usize,
    places: &mut HashMap<Vec<u8>, usize>,
) -> Result<(), AllocError>
    ensures put { OnOk result ((names : List (List ℕ)) → place ≡ length names → ArePlacesOf names places.old → ArePlacesOf (names ++ name.items ∷ []) places.new) }
    ensures unchanged { OnErr result (places.new.entries ≡ places.old.entries) }
{
    if places.contains_key(name.as_slice()) {
        return Ok(());
    }
    if places.insert(name, place).is_err() {
        return Err(AllocError);
    }
    Ok(())
}

/// A table of the first places of these names.
fn table_of(alloc: Global, names: &[Text]) -> Result<HashMap<Vec<u8>, usize>, AllocError>
    ensures { IfOk result (λ table. ArePlacesOf names.now table) }
{
    let mut places = HashMap::new(alloc);
    for number in 0..names.len() {
        let name = Vec::from_slice(alloc, names[number].as_bytes())?;
        put_place(name, number, &mut places)?;
    }
    Ok(places)
}

/// Appends a name to others, and puts its place into their table.
fn push_both(
    alloc: Global,
    name: Text,
    names: &mut Vec<Text>,
    places: &mut HashMap<Vec<u8>, usize>,
) -> Result<(), AllocError>
    ensures pushed { OnOk result (names.new.items ≡ names.old.items ++ name ∷ []) }
    ensures places { ArePlacesOf names.old.items places.old → ArePlacesOf names.new.items places.new }
{
    let bytes = Vec::from_slice(alloc, name.as_bytes())?;
    let place = names.len();
    names.push(name)?;
    if put_place(bytes, place, places).is_err() {
        names.truncate(place);
        return Err(AllocError);
    }
    Ok(())
}

/// Appends a name to few others. If there are many then, a table of their places.
fn push_few(
    alloc: Global,
    name: Text,
    names: &mut Vec<Text>,
) -> Result<Option<HashMap<Vec<u8>, usize>>, AllocError>
    ensures pushed { OnOk result (names.new.items ≡ names.old.items ++ name ∷ []) }
    ensures places { IfOk result (λ places. IfSome places (λ table. ArePlacesOf names.new.items table)) }
{
    names.push(name)?;
    if names.len() <= FEW {
        return Ok(None);
    }
    table_of(alloc, names).map(Some)
}

impl NameSet {
    /// No names.
    pub fn new(alloc: Global) -> NameSet
        ensures { result ≡ [] }
    {
        NameSet {
            names: Vec::new(alloc),
            places: None,
        }
    }

    /// How many names there are.
    pub fn len(&self) -> usize
        ensures { result ≡ length self.now }
    {
        self.names.len()
    }

    /// The first place at which the name stands, from 0.
    pub fn place_of(&self, name: &str) -> Option<usize>
        ensures { result ≡ place_from 0 self.now name.now }
    {
        match &self.places {
            Some(places) => place_in(places, name),
            None => first_place(&self.names, name),
        }
    }

    /// Whether the name is among them.
    pub fn has(&self, name: &str) -> bool
        ensures { result ≡ is_one_of name.now self.now }
    {
        match self.place_of(name) {
            Some(_) => true,
            None => false,
        }
    }

    /// Appends a name.
    pub fn push(&mut self, alloc: Global, name: Text) -> Result<(), AllocError>
        ensures { OnOk result (self.new ≡ self.old ++ name ∷ []) }
    {
        if let Some(places) = &mut self.places {
            return push_both(alloc, name, &mut self.names, places);
        }
        self.places = push_few(alloc, name, &mut self.names)?;
        Ok(())
    }
}
