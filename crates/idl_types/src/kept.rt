ghost use Rattle.std.specs.Prelude.{◌≡◌, ◌++◌, ◌∷◌, [], None, true, OnOk, length};
ghost use Rattle.type_rules.specs.Valid.{type_fault};
ghost use Rattle.idl_types.specs.Definitions.{all_fit, declared, defined, fits};
ghost use Rattle.idl_types.specs.Kept.{all_valid};

use crate::declarations::Declaration;
use std::alloc::Global;
use std::marker::Model;
use xt_lists::{OutOfMemory, Row};

/// The types that a text declares, in order. Each is valid, and what each structure names as its base is a structure of the same
/// extensibility (DDS-XTypes 1.3, 7.2.2).
#[derive(Drop)]
pub struct Declarations {
    items: Row<Declaration>,
}

impl Model for Declarations {
    ghost use Rattle.std.specs.Prelude.{List};
    ghost use Rattle.std.specs.Coded.{codes};
    ghost use Rattle.idl_types.specs.contracts.uses.Used as used;
    ghost use Rattle.idl_types.specs.declared.declarations.Declaration.{Declaration};
    ghost use Rattle.idl_types.specs.Kept.{AreKept};

    ghost Value = { List Declaration };

    ghost coded = { Prim.hlevel (codes, used.the_row.coded) };

    ghost view = { λ d. d.items };

    ghost invariant = { λ d. AreKept d.items };
}

impl Declarations {
    /// None. It takes no memory.
    pub fn new(alloc: Global) -> Declarations
        ensures { result ≡ [] }
    {
        Declarations {
            items: Row::new(alloc),
        }
    }

    /// The declarations, in order.
    pub fn as_slice(&self) -> &[Declaration]
        ensures same { result.now ≡ self.now }
        ensures fit { all_fit result.now ≡ true }
        ensures valid { all_valid (declared result.now) ≡ true }
    {
        self.items.as_slice()
    }

    /// Appends a declaration over those before it.
    pub fn push(&mut self, declaration: Declaration) -> Result<(), OutOfMemory>
        requires fits { fits (declared self.old) declaration.definition ≡ true }
        requires valid { type_fault (defined (declared self.old) declaration.name declaration.definition) ≡ None }
        ensures { OnOk result (self.new ≡ self.old ++ declaration ∷ []) }
    {
        self.items.push(declaration)
    }
}
