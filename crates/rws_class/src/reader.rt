//! Readers of statements whose class comes from what stands anywhere in them.

ghost use Rattle.std.specs.Prelude.{◌≡◌, [], ◌∷◌, List};
ghost use Rattle.rws_words.specs.Places.{Place};
ghost use Rattle.rws_words.specs.Windows.{place};
ghost use Rattle.rws_class.specs.Rules.{query_class, insert_class, create_class};

use crate::class::Class;
use crate::rule::{
    ends_columns, is_assign, is_no_ddl, is_no_query, is_source, locks_rows, needs_primary,
};
use rws_words::{Window, is_opened};

/// A SELECT or WITH.
#[derive(Clone, Copy)]
pub(crate) struct Query {
    pub(crate) no_query: bool,
    pub(crate) locks_rows: bool,
    pub(crate) needs_primary: bool,
}

impl Query {
    ghost use Rattle.rws_class.specs.States.{query_left};

    /// Begins with the first word.
    pub(crate) fn begin(window: &Window<'_>) -> Query
        ensures { (ps : List Place) → query_left result ps ≡ query_class (place window.now ∷ ps) }
    {
        let mut reader = Query {
            no_query: false,
            locks_rows: false,
            needs_primary: false,
        };
        reader.read(window);
        reader
    }

    pub(crate) fn read(&mut self, window: &Window<'_>)
        ensures { (ps : List Place) → query_left self.new ps ≡ query_left self.old (place window.now ∷ ps) }
    {
        self.no_query |= is_no_query(window);
        self.locks_rows |= locks_rows(window);
        self.needs_primary |= needs_primary(window);
    }

    pub(crate) fn class(&self) -> Class
        ensures { result ≡ query_left self.now [] }
    {
        if self.no_query {
            Class::Other
        } else if self.locks_rows {
            Class::Write
        } else if self.needs_primary {
            Class::PrimaryRead
        } else {
            Class::Read
        }
    }
}

/// An INSERT or REPLACE.
#[derive(Clone, Copy)]
pub(crate) struct Insert {
    pub(crate) reaches_out: bool,
    /// Whether the list of columns may still come.
    pub(crate) before_columns: bool,
}

impl Insert {
    ghost use Rattle.rws_class.specs.States.{insert_left, calls_out};

    /// Begins with the first word.
    pub(crate) fn begin(window: &Window<'_>) -> Insert
        ensures { (ps : List Place) → insert_left result ps ≡ insert_class (place window.now ∷ ps) }
    {
        let mut reader = Insert {
            reaches_out: false,
            before_columns: true,
        };
        reader.read(window);
        reader
    }

    pub(crate) fn read(&mut self, window: &Window<'_>)
        ensures { (ps : List Place) → insert_left self.new ps ≡ insert_left self.old (place window.now ∷ ps) }
    {
        self.reaches_out |= is_assign(window) | self.calls_out(window);
        self.before_columns &= !(ends_columns(window) | is_opened(window));
    }

    /// Whether this is a call that isn't known. The parenthesis of the list of columns makes none.
    fn calls_out(&self, window: &Window<'_>) -> bool
        ensures { result ≡ calls_out self.now.before_columns (place window.now) }
    {
        !(self.before_columns && !ends_columns(window) && is_opened(window))
            && window.is_foreign_call()
    }

    pub(crate) fn class(&self) -> Class
        ensures { result ≡ insert_left self.now [] }
    {
        if self.reaches_out {
            Class::Other
        } else {
            Class::Write
        }
    }
}

/// A CREATE.
#[derive(Clone, Copy)]
pub(crate) struct Create {
    pub(crate) no_ddl: bool,
    /// Whether no rows came yet.
    pub(crate) before_source: bool,
}

impl Create {
    ghost use Rattle.rws_class.specs.States.{create_left};

    /// Begins with the first word.
    pub(crate) fn begin(window: &Window<'_>) -> Create
        ensures { (ps : List Place) → create_left result ps ≡ create_class (place window.now ∷ ps) }
    {
        let mut reader = Create {
            no_ddl: false,
            before_source: true,
        };
        reader.read(window);
        reader
    }

    pub(crate) fn read(&mut self, window: &Window<'_>)
        ensures { (ps : List Place) → create_left self.new ps ≡ create_left self.old (place window.now ∷ ps) }
    {
        self.no_ddl |= is_no_ddl(window) | (!self.before_source & window.is_foreign_call());
        self.before_source &= !is_source(window);
    }

    pub(crate) fn class(&self) -> Class
        ensures { result ≡ create_left self.now [] }
    {
        if self.no_ddl {
            Class::Other
        } else {
            Class::Ddl
        }
    }
}
