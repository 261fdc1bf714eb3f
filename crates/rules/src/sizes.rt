//! How many items there are to name.
ghost use Rattle.std.specs.Prelude.{◌≡◌};
ghost use Rattle.rules.specs.Sizes.{size_in};

use ir::handle::Table;

/// How many items each table has.
// Beside `Lengths` of the drafts: this goes by the tables of handles, that one by the tables of slots, which count a body's expressions apart.
#[derive(Clone, Copy, PartialEq, Eq, Debug)]
pub struct Sizes {
    pub types: usize,
    pub constants: usize,
    pub overrides: usize,
    pub global_variables: usize,
    pub local_variables: usize,
    pub expressions: usize,
    pub functions: usize,
    pub filters: usize,
}

impl Sizes {
    /// How many items a table has; no handle names an entry point.
    pub fn of(self, table: Table) -> usize
        ensures { result ≡ size_in self table }
    {
        match table {
            Table::Types => self.types,
            Table::Constants => self.constants,
            Table::Overrides => self.overrides,
            Table::GlobalVariables => self.global_variables,
            Table::LocalVariables => self.local_variables,
            Table::Expressions => self.expressions,
            Table::Functions => self.functions,
            Table::Filters => self.filters,
            Table::EntryPoints => 0,
        }
    }
}
