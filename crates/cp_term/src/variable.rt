// Variables: their numbers, and the table in which they are declared, with their sorts.
ghost use Rattle.std.specs.Prelude.{◌≡◌, ◌<◌, ◌^◌, ◌++◌, [], ◌∷◌, length, map, slice_get, Some, IfOk, OnOk, OnErr};
ghost use Rattle.cp_term.specs.Entries.{declared_by, shared_entries};
ghost use Rattle.cp_model.specs.Data.{roots, sorts};

use cp_base::Text;
use cp_model::Sort;
use std::alloc::{AllocError, Global};
use std::marker::Model;
use std::rc::Rc;

/// The number of a variable: its place in the table of variables, counted from 0.
#[derive(Clone, Copy, Debug, PartialEq, Eq)]
pub struct VarId {
    number: usize,
}

impl Model for VarId {
    ghost use Rattle.std.specs.Prelude.{ℕ};

    ghost Value = { ℕ };

    ghost view = { λ v. v.number };

    ghost inverse = { λ n. record { number = n } };
}

impl VarId {
    /// The variable with this number.
    pub fn numbered(number: usize) -> VarId
        ensures { result ≡ number }
    {
        VarId { number }
    }

    /// The variable's number.
    pub fn number(self) -> usize
        ensures { result ≡ self }
    {
        self.number
    }
}

/// What is kept for a variable: the identifier that it is named after, which copies of the table share, and its sort.
#[derive(Drop)]
struct Entry {
    root: Rc<Text>,
    sort: Sort,
}

// A copy shares the identifier.
impl Clone for Entry {
    ghost use Rattle.cp_term.specs.Entries.{declared_by};

    ghost is_clone = { λ e copy. declared_by copy ≡ declared_by e };

    fn clone(&self) -> Result<Entry, AllocError> {
        let root = self.root.clone()?;
        Ok(Entry {
            root,
            sort: self.sort,
        })
    }
}

/// The entries that a table shares with its copies.
fn entries_of(shared: &Option<Rc<Vec<Entry>>>) -> &[Entry]
    ensures entries { result.now ≡ shared_entries shared.now }
    ensures few { length result.now < 2 ^ 63 }
{
    match shared {
        Some(entries) => entries.as_slice(),
        None => &[],
    }
}

/// Another handle to the entries that a table shares with its copies.
fn another_handle(shared: &Option<Rc<Vec<Entry>>>) -> Result<Option<Rc<Vec<Entry>>>, AllocError>
    ensures { IfOk result (λ copy. shared_entries copy ≡ shared_entries shared.now) }
{
    match shared {
        Some(entries) => entries.clone().map(Some),
        None => Ok(None),
    }
}

/// The variables that were made so far, in the order in which they were made: those that copies share, then those that
/// were made since.
#[derive(Drop)]
pub struct VarTable {
    shared: Option<Rc<Vec<Entry>>>,
    own: Vec<Entry>,
}

impl Model for VarTable {
    ghost use Rattle.std.specs.Prelude.{List};
    ghost use Rattle.cp_model.specs.declared.variable.Declaration.{Declaration};

    ghost Value = { List Declaration };

    ghost use Rattle.std.specs.Prelude.{◌++◌, map};
    ghost use Rattle.cp_term.specs.Entries.{declared_by, shared_entries};

    ghost view = { λ t. map declared_by (shared_entries t.shared) ++ map declared_by t.own.items };
}

impl VarTable {
    /// A table with no variable.
    pub fn new(alloc: Global) -> VarTable
        ensures { result ≡ [] }
    {
        VarTable {
            shared: None,
            own: Vec::new(alloc),
        }
    }

    /// How many variables there are.
    pub fn len(&self) -> usize
        ensures { result ≡ length self.now }
    {
        entries_of(&self.shared).len() + self.own.len()
    }

    /// Makes a variable of this sort, later than all others, that is named after this identifier. On an error the table
    /// is unchanged.
    pub fn fresh(&mut self, root: &str, sort: Sort) -> Result<VarId, AllocError>
        ensures later { IfOk result (λ v. v ≡ length self.old) }
        ensures added { OnOk result (self.new ≡ self.old ++ record { identifier = root.now; sort = sort } ∷ []) }
        ensures unchanged { OnErr result (self.new ≡ self.old) }
    {
        let number = self.len();
        let alloc = *self.own.allocator();
        let text = Text::new(alloc, root)?;
        let root = Rc::new(alloc, text)?;
        self.own.push(Entry { root, sort })?;
        Ok(VarId { number })
    }

    /// Its variables, all shared.
    fn all_shared(&self, alloc: Global) -> Result<Option<Rc<Vec<Entry>>>, AllocError>
        ensures { IfOk result (λ shared. map declared_by (shared_entries shared) ≡ self.now) }
    {
        if self.own.is_empty() {
            return another_handle(&self.shared);
        }
        let mut entries = Vec::with_capacity(alloc, self.len())?;
        entries.extend_with_clones(entries_of(&self.shared))?;
        entries.extend_with_clones(&self.own)?;
        Rc::new(alloc, entries).map(Some).map_err(AllocError::from)
    }

    /// The same variables. If none was made since this table is a copy itself, the two share all entries; otherwise they
    /// share the identifiers.
    pub fn copy(&self) -> Result<VarTable, AllocError>
        ensures { IfOk result (λ t. t ≡ self.now) }
    {
        let alloc = *self.own.allocator();
        let shared = self.all_shared(alloc)?;
        let own = Vec::new(alloc);
        Ok(VarTable { shared, own })
    }

    /// The entry of a variable.
    fn entry(&self, id: VarId) -> &Entry
        requires { id < length self.now }
        ensures { slice_get self.now id ≡ Some (declared_by result.now) }
    {
        let shared = entries_of(&self.shared);
        if id.number < shared.len() {
            &shared[id.number]
        } else {
            &self.own[id.number - shared.len()]
        }
    }

    /// The identifier that the variable is named after.
    pub fn root(&self, id: VarId) -> &str
        requires { id < length self.now }
        ensures { slice_get (roots self.now) id ≡ Some result.now }
    {
        self.entry(id).root.as_str()
    }

    /// The sort of the variable.
    pub fn sort(&self, id: VarId) -> Sort
        requires { id < length self.now }
        ensures { slice_get (sorts self.now) id ≡ Some result }
    {
        self.entry(id).sort
    }
}
