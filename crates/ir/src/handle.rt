//! The tables of a module, and handles typed by table, so that the number of one never passes for that
//! of another.
ghost use Rattle.std.specs.Prelude.{◌≡◌};
ghost use Rattle.ir.specs.Handle.{numbered, named, table_of, index_of};

use std::marker::PhantomData;

/// The tables whose items are numbered, each from 0.
#[derive(Clone, Copy, Debug, PartialEq, Eq)]
pub enum Table {
    Types,
    Constants,
    Overrides,
    GlobalVariables,
    LocalVariables,
    Expressions,
    Functions,
    Filters,
    EntryPoints,
}

/// A type for each table, for the handles of its items.
pub mod tables {
    #[derive(Clone, Copy)]
    pub struct Types;

    #[derive(Clone, Copy)]
    pub struct Constants;

    #[derive(Clone, Copy)]
    pub struct Overrides;

    #[derive(Clone, Copy)]
    pub struct GlobalVariables;

    #[derive(Clone, Copy)]
    pub struct LocalVariables;

    #[derive(Clone, Copy)]
    pub struct Expressions;

    #[derive(Clone, Copy)]
    pub struct Functions;

    #[derive(Clone, Copy)]
    pub struct Filters;

    #[derive(Clone, Copy)]
    pub struct EntryPoints;
}

/// The number of an item in the table `T`.
#[derive(Clone, Copy)]
pub struct HandleIn<T> {
    pub index: u32,
    marker: PhantomData<T>,
}

/// The number of an expression.
pub type ExpressionHandle = HandleIn<tables::Expressions>;

/// A handle of any table.
// A case for each table, so that a match on it has handles of that table.
#[derive(Clone, Copy)]
pub enum Handle {
    Type(HandleIn<tables::Types>),
    Constant(HandleIn<tables::Constants>),
    Override(HandleIn<tables::Overrides>),
    GlobalVariable(HandleIn<tables::GlobalVariables>),
    LocalVariable(HandleIn<tables::LocalVariables>),
    Expression(HandleIn<tables::Expressions>),
    Function(HandleIn<tables::Functions>),
    Filter(HandleIn<tables::Filters>),
    EntryPoint(HandleIn<tables::EntryPoints>),
}

impl<T> HandleIn<T> {
    /// The handle of the item with this number.
    pub fn new(index: u32) -> HandleIn<T>
        ensures { result ≡ numbered index }
    {
        HandleIn {
            index,
            marker: PhantomData,
        }
    }
}

impl Table {
    /// The handle of the item numbered `index`.
    pub fn handle(self, index: u32) -> Handle
        ensures { result ≡ named self index }
    {
        match self {
            Table::Types => Handle::Type(HandleIn::new(index)),
            Table::Constants => Handle::Constant(HandleIn::new(index)),
            Table::Overrides => Handle::Override(HandleIn::new(index)),
            Table::GlobalVariables => Handle::GlobalVariable(HandleIn::new(index)),
            Table::LocalVariables => Handle::LocalVariable(HandleIn::new(index)),
            Table::Expressions => Handle::Expression(HandleIn::new(index)),
            Table::Functions => Handle::Function(HandleIn::new(index)),
            Table::Filters => Handle::Filter(HandleIn::new(index)),
            Table::EntryPoints => Handle::EntryPoint(HandleIn::new(index)),
        }
    }
}

impl Handle {
    /// The table whose item it names.
    pub fn table(self) -> Table
        ensures { result ≡ table_of self }
    {
        match self {
            Handle::Type(_) => Table::Types,
            Handle::Constant(_) => Table::Constants,
            Handle::Override(_) => Table::Overrides,
            Handle::GlobalVariable(_) => Table::GlobalVariables,
            Handle::LocalVariable(_) => Table::LocalVariables,
            Handle::Expression(_) => Table::Expressions,
            Handle::Function(_) => Table::Functions,
            Handle::Filter(_) => Table::Filters,
            Handle::EntryPoint(_) => Table::EntryPoints,
        }
    }

    /// The number of that item.
    pub fn index(self) -> u32
        ensures { result ≡ index_of self }
    {
        match self {
            Handle::Type(handle) => handle.index,
            Handle::Constant(handle) => handle.index,
            Handle::Override(handle) => handle.index,
            Handle::GlobalVariable(handle) => handle.index,
            Handle::LocalVariable(handle) => handle.index,
            Handle::Expression(handle) => handle.index,
            Handle::Function(handle) => handle.index,
            Handle::Filter(handle) => handle.index,
            Handle::EntryPoint(handle) => handle.index,
        }
    }
}
