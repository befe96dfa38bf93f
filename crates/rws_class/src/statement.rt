//! A reader of a statement, token by token.

ghost use Rattle.std.specs.Prelude.{◌≡◌, ◌+◌, ◌^◌, ◌<◌, ◌≤◌, ◌∷◌, [], List, filter, true};
ghost use Rattle.rws_words.specs.Places.{Place, tokens_of};
ghost use Rattle.rws_words.specs.Windows.{place};
ghost use Rattle.rws_class.specs.Classes.{first_word_of, class_by, statement_class, is_no_semicolon};
ghost use Rattle.rws_class.specs.Forms.{form_class, forms};
ghost use Rattle.rws_class.specs.declared.class.Class.{Class};
ghost use Rattle.rws_class.specs.declared.class.Class.TheVariants.{Other};

use crate::class::Class;
use crate::first_tokens::FirstTokens;
use crate::first_word::{FirstWord, first_word_of};
use crate::reader::{Create, Insert, Query};
use crate::rule::{is_no_ddl, reaches_out};
use crate::set::SetReader;
use rws_token::is_symbol;
use rws_words::Window;

/// What was read of a statement, as far as its class needs it.
#[derive(Clone, Copy)]
pub(crate) enum Statement<'a> {
    Query(Query),
    /// Whether it reaches out.
    Show(bool),
    /// Whether it reaches out.
    Change(bool),
    Insert(Insert),
    Create(Create),
    /// Whether it is more than a change of definitions.
    Define(bool),
    Fixed,
    Set(SetReader<'a>),
    Unknown,
}

impl<'a> Statement<'a> {
    ghost use Rattle.rws_class.specs.States.{statement_left, depth_of};

    /// Begins with the first word.
    fn begin(window: &Window<'a>) -> Statement<'a>
        ensures left { (ps : List Place) → statement_left result (form_class forms (tokens_of (place window.now ∷ ps))) ps
            ≡ class_by (first_word_of (place window.now).this) (place window.now ∷ ps) }
        ensures depth { depth_of result ≡ 0 }
    {
        match first_word_of(&window.this) {
            FirstWord::Query => Statement::Query(Query::begin(window)),
            FirstWord::Show => Statement::Show(reaches_out(window)),
            FirstWord::Change => Statement::Change(reaches_out(window)),
            FirstWord::Insert => Statement::Insert(Insert::begin(window)),
            FirstWord::Create => Statement::Create(Create::begin(window)),
            FirstWord::Define => Statement::Define(is_no_ddl(window)),
            FirstWord::Fixed => Statement::Fixed,
            FirstWord::Set => Statement::Set(SetReader::begin(window)),
            FirstWord::Unknown => Statement::Unknown,
        }
    }

    fn read(&mut self, window: &Window<'a>)
        requires { depth_of self.old + 1 < 2 ^ 64 }
        ensures left { (form : Class) (ps : List Place) → statement_left self.new form ps
            ≡ statement_left self.old form (place window.now ∷ ps) }
        ensures depth { depth_of self.new ≤ depth_of self.old + 1 }
    {
        match self {
            Statement::Query(query) => query.read(window),
            Statement::Show(out) => *out |= reaches_out(window),
            Statement::Change(out) => *out |= reaches_out(window),
            Statement::Insert(insert) => insert.read(window),
            Statement::Create(create) => create.read(window),
            Statement::Define(more) => *more |= is_no_ddl(window),
            Statement::Set(set) => set.read(window),
            Statement::Fixed | Statement::Unknown => {}
        }
    }

    /// Whether it is of class Other, whatever comes.
    fn is_other(&self) -> bool
        ensures { (form : Class) (ps : List Place) → result ≡ true → statement_left self.now form ps ≡ Other }
    {
        match self {
            Statement::Query(query) => query.no_query,
            Statement::Show(out) | Statement::Change(out) => *out,
            Statement::Insert(insert) => insert.reaches_out,
            Statement::Create(create) => create.no_ddl,
            Statement::Define(more) => *more,
            Statement::Fixed | Statement::Set(_) => false,
            Statement::Unknown => true,
        }
    }

    /// The class of a statement that has the fixed form of this class, or none.
    fn class(&self, form: Class) -> Class
        ensures { result ≡ statement_left self.now form [] }
    {
        match self {
            Statement::Query(query) => query.class(),
            Statement::Show(false) => Class::PrimaryRead,
            Statement::Change(false) => Class::Write,
            Statement::Insert(insert) => insert.class(),
            Statement::Create(create) => create.class(),
            Statement::Define(false) => Class::Ddl,
            Statement::Fixed => form,
            Statement::Set(set) => set.class(form),
            _ => Class::Other,
        }
    }
}

/// A reader of the tokens of a statement, without the semicolon behind it.
#[derive(Clone, Copy)]
pub(crate) struct Reader<'a> {
    /// None as long as no word came.
    pub(crate) statement: Option<Statement<'a>>,
    pub(crate) first_tokens: FirstTokens<'a>,
}

impl<'a> Reader<'a> {
    ghost use Rattle.rws_class.specs.States.{reader_left, reader_depth};

    pub(crate) fn new() -> Reader<'a>
        ensures left { (ps : List Place) → reader_left result ps ≡ statement_class ps }
        ensures depth { reader_depth result ≡ 0 }
    {
        Reader {
            statement: None,
            first_tokens: FirstTokens::new(),
        }
    }

    fn read(&mut self, window: &Window<'a>)
        requires { reader_depth self.old + 1 < 2 ^ 64 }
        ensures left { (ps : List Place) → reader_left self.new ps ≡ reader_left self.old (place window.now ∷ ps) }
        ensures depth { reader_depth self.new ≤ reader_depth self.old + 1 }
    {
        match &mut self.statement {
            None if is_symbol(&window.this, b'(') => {}
            None => {
                self.statement = Some(Statement::begin(window));
                self.first_tokens = FirstTokens::begin(&window.this);
            }
            Some(statement) => {
                statement.read(window);
                self.first_tokens.read(&window.this);
            }
        }
    }

    /// Reads one more token of a text that isn't unfit. A semicolon is its last one, and skipped.
    pub(crate) fn advance(&mut self, window: &Window<'a>)
        requires { reader_depth self.old + 1 < 2 ^ 64 }
        ensures left { (ps : List Place) → reader_left self.new (filter is_no_semicolon ps)
            ≡ reader_left self.old (filter is_no_semicolon (place window.now ∷ ps)) }
        ensures depth { reader_depth self.new ≤ reader_depth self.old + 1 }
    {
        if !is_symbol(&window.this, b';') {
            self.read(window);
        }
    }

    /// Whether the class is Other, whatever comes.
    pub(crate) fn is_other(&self) -> bool
        ensures { (ps : List Place) → result ≡ true → reader_left self.now ps ≡ Other }
    {
        match &self.statement {
            Some(statement) => statement.is_other(),
            None => false,
        }
    }

    pub(crate) fn class(&self) -> Class
        ensures { result ≡ reader_left self.now [] }
    {
        match &self.statement {
            Some(statement) => statement.class(self.first_tokens.class()),
            None => Class::Other,
        }
    }
}
