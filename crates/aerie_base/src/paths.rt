//! Paths of tasks.

ghost use Rattle.std.specs.Prelude.{◌≡◌, ◌↔◌, ◌∷◌, IsTrue, IfOk, Some, None, Ok, false, nat_eq, refl};
ghost use Rattle.std.proofs.Common.{ap, sym};
ghost use Rattle.std.specs.Ordering.{nat_cmp};
ghost use Rattle.std.specs.Cmp.{partial_equiv_from_equiv};
ghost use Rattle.std.specs.Cmp.Lexicographic.{pointwise, slice_cmp, nat_list_eq_equiv, nat_list_cmp_total, same_text, texts_po, texts_ties};
ghost use Rattle.aerie_base.specs.PathHashes.{hashed, root_number};
ghost use Rattle.aerie_base.specs.Paths.{root, daemon_root, comes_from_daemon, id_of, children_of, path_of, is_path, may_have_children, child_of, is_prefix, path_cmp, AnyUnder};
ghost use Rattle.std.specs.BTreeSet.{contains};

use crate::memory::OutOfMemory;
use std::alloc::Global;
use std::cmp::Ordering;
use std::collections::BTreeSet;
use std::hash::{Hash, Hasher};
use std::marker::Model;

/// How many children a path names at most.
const MOST_CHILDREN: usize = 64;

/// The path of a task: the id of its directive or daemon, and then the number of each child on the way down to it,
/// counted from 0 in the order in which its parent made it. At most 64 children stand in it. Contracts see the list
/// of 0 for a directive or 1 for a daemon, the id and those numbers.
#[derive(Debug, Drop)]
pub struct Path {
    daemon: bool,
    id: u32,
    children: Vec<u32>,
}

impl Model for Path {
    ghost use Rattle.std.specs.Prelude.{List, ℕ, ◌∷◌, IsTrue, if◌then◌else◌};
    ghost use Rattle.std.specs.Coded.{coded_list, coded_ℕ};
    ghost use Rattle.aerie_base.specs.Paths.{is_path};

    ghost Value = { List ℕ };

    ghost coded = { coded_list coded_ℕ };

    ghost view = { λ path. (if path.daemon then 1 else 0) ∷ path.id ∷ path.children.items };

    ghost invariant = { λ path. IsTrue (is_path ((if path.daemon then 1 else 0) ∷ path.id ∷ path.children.items)) };
}

impl Path {
    /// The path of the directive with this id.
    pub fn of_directive(alloc: Global, id: u32) -> Result<Path, OutOfMemory>
        ensures { IfOk result (λ path. path ≡ root id) }
    {
        Ok(Path {
            daemon: false,
            id,
            children: Vec::new(alloc),
        })
    }

    /// The path of the daemon with this id.
    pub fn of_daemon(alloc: Global, id: u32) -> Result<Path, OutOfMemory>
        ensures { IfOk result (λ path. path ≡ daemon_root id) }
    {
        Ok(Path {
            daemon: true,
            id,
            children: Vec::new(alloc),
        })
    }

    /// The path of the child with this number, or `None` where this path has 64 numbers after the id. Only a path
    /// takes memory.
    pub fn child(&self, alloc: Global, number: u32) -> Result<Option<Path>, OutOfMemory>
        ensures child { IfOk result (λ path. path ≡ child_of self.now number) }
        ensures refused { may_have_children self.now ≡ false → result ≡ Ok None }
    {
        if self.children.len() >= MOST_CHILDREN {
            return Ok(None);
        }
        let mut children = Vec::with_capacity(alloc, self.children.len() + 1)?;
        children.extend_from_slice(&self.children)?;
        children.push(number)?;
        Ok(Some(Path {
            daemon: self.daemon,
            id: self.id,
            children,
        }))
    }

    /// Whether the task comes from a daemon.
    pub fn daemon(&self) -> bool
        ensures { result ≡ comes_from_daemon self.now }
    {
        self.daemon
    }

    /// The id of the directive or daemon.
    pub fn id(&self) -> u32
        ensures { result ≡ id_of self.now }
    {
        self.id
    }

    /// The number of each child on the way down. With the other two accessors it says the whole path.
    pub fn children(&self) -> &[u32]
        ensures children { result.now ≡ children_of self.now }
        ensures whole { self.now ≡ path_of (comes_from_daemon self.now) (id_of self.now) (children_of self.now) }
        ensures path { IsTrue (is_path self.now) }
    {
        self.children.as_slice()
    }

    /// Whether this path is the other or begins with it.
    #[tactic(auto, using(crate::proofs::Prefixes::starts_is_under))]
    pub fn is_under(&self, other: &Path) -> bool
        ensures { result ≡ is_prefix other.now self.now }
    {
        let same_root = self.daemon == other.daemon && self.id == other.id;
        same_root && self.children().starts_with(other.children())
    }

    /// Whether one of the paths is this one or begins with it. Such paths stand together in the order, so it looks at
    /// one of them alone.
    pub fn has_any_under(&self, paths: &BTreeSet<Path>) -> bool
        ensures { IsTrue result ↔ AnyUnder self.now (λ path. IsTrue (contains path_cmp paths.now path)) }
    {
        match paths.range(self..).next() {
            Some(first) => first.is_under(self),
            None => false,
        }
    }

    /// An equal path.
    pub fn copy(&self, alloc: Global) -> Result<Path, OutOfMemory>
        ensures { IfOk result (λ path. path ≡ self.now) }
    {
        let children = Vec::from_slice(alloc, &self.children)?;
        Ok(Path {
            daemon: self.daemon,
            id: self.id,
            children,
        })
    }

    /// The directive or daemon that the task comes from, as one number.
    fn root_number(&self) -> u64
        ensures { result ≡ root_number self.now }
    {
        let id = u64::from(self.id);
        if self.daemon { id * 2 + 1 } else { id * 2 }
    }

    /// Whether the two are the same path.
    pub fn is_same(&self, other: &Path) -> bool
        ensures { IsTrue result ↔ (self.now ≡ other.now) }
    {
        self == other
    }
}

impl PartialEq for Path {
    ghost eq = { pointwise nat_eq };

    ghost laws = { partial_equiv_from_equiv nat_list_eq_equiv };

    fn eq(&self, other: &Path) -> bool {
        self.daemon == other.daemon && self.id == other.id && self.children() == other.children()
    }
}

impl Eq for Path {
    ghost laws = { nat_list_eq_equiv };
}

/// Directives stand before daemons, smaller ids first, then the numbers are compared from the front, a prefix before
/// what it begins.
impl PartialOrd for Path {
    ghost partial_cmp = { λ x y. Some (slice_cmp nat_cmp x y) };

    ghost laws = { texts_po };

    fn partial_cmp(&self, other: &Path) -> Option<Ordering> {
        Some(self.cmp(other))
    }
}

impl Ord for Path {
    ghost cmp = { slice_cmp nat_cmp };

    ghost total = { nat_list_cmp_total };

    ghost matches_partial_cmp = { λ x y. refl };

    ghost matches_eq = { texts_ties };

    fn cmp(&self, other: &Path) -> Ordering {
        match self.daemon.cmp(&other.daemon).then(self.id.cmp(&other.id)) {
            Ordering::Equal => self.children().cmp(other.children()),
            unequal => unequal,
        }
    }
}

impl Hash for Path {
    ghost hash_input = { hashed };

    ghost respects_eq = { λ path other same. ap hashed (same_text path other (sym same)) };

    /// A path without children, as most are, is hashed as one number.
    fn hash<H: Hasher>(&self, state: &mut H) {
        self.root_number().hash(state);
        for child in self.children() {
            child.hash(state);
        }
    }
}
