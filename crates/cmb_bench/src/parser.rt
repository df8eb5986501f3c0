//! From tokens to statements.
ghost use Rattle.std.specs.Prelude.{◌≡◌, ◌+◌, ◌^◌, ◌<◌, ◌≤◌, ◌++◌, [], ◌∷◌, length, map, if◌then◌else◌, IfOk, IfErr};
ghost use Rattle.std.specs.Prelude.{◌≢◌, OnOk, IsOk, not, false};
ghost use Rattle.cmb_bench.specs.Inner.Word.{is_end};
ghost use Rattle.cmb_bench.specs.declared.fault.ReadError.TheVariants.{Fault, Memory};
ghost use Rattle.cmb_bench.specs.declared.text.Class.TheVariants.{End};
ghost use Rattle.cmb_bench.specs.Inner.Scan.{scan, lexeme, behind};
ghost use Rattle.cmb_bench.specs.Inner.Views.{mention, mentions, statement};
ghost use Rattle.cmb_bench.specs.Inner.Reading.{Gives, fault_at, marked, misplaced, used_name, with_net};
ghost use Rattle.cmb_bench.specs.Inner.Reading.{short_name, operands_at, driver_at, input_at, output_at, keyword_at};
ghost use Rattle.cmb_bench.specs.Inner.Reading.{statement_at};
ghost use Rattle.cmb_bench.specs.Statement.{driven_by, is_member, driven};
ghost use Rattle.cmb_bench.specs.Inner.Building.{Stops};
ghost use Rattle.cmb_bench.specs.Text.{tokens_of};
ghost use Rattle.cmb_bench.specs.Inner.Snippet.{snippets_of};

use crate::fault::{BenchFault, FaultKind, ReadError};
use crate::text::{Class, Cursor, Token};
use cmb_netlist::{Cell, MAX_NAME, MAX_NETS, MAX_TEXT, Name, cell_named, is_word, takes_one};
use indexmap::IndexSet;
use smallvec::SmallVec;
use std::alloc::Global;

/// A name that is used, and the line on which it stands.
#[derive(Clone, Copy)]
pub struct Use<'a> {
    pub name: &'a [u8],
    pub line: u32,
}

// What stands in a place of `Uses` that no name has taken.
impl<'a> Default for Use<'a> {
    fn default() -> Use<'a> {
        Use { name: &[], line: 0 }
    }
}

/// Names that are used. Up to two of them need no memory of their own.
pub type Uses<'a> = SmallVec<Use<'a>, 2>;

/// A statement.
#[derive(Drop)]
pub enum Item<'a> {
    Input(&'a [u8]),
    Output(Use<'a>),
    Drive(&'a [u8], Cell, Uses<'a>),
}

fn fault_at(token: Token, kind: FaultKind) -> ReadError
    ensures { result ≡ Fault (fault_at (lexeme token.entry) kind) }
{
    ReadError::Fault(BenchFault {
        line: token.line,
        kind,
    })
}

/// The fault of a token that no statement goes on with.
fn misplaced(token: Token) -> ReadError
    ensures { result ≡ Fault (misplaced (lexeme token.entry)) }
{
    if token.is(Class::Bad) {
        fault_at(token, FaultKind::Byte)
    } else {
        fault_at(token, FaultKind::Statement)
    }
}

/// Takes a mark of this class.
#[tactic(auto, unfolding(crate::specs::Inner::Reading::marked))]
fn take_mark(cursor: &mut Cursor, class: Class) -> Result<(), ReadError>
    requires inner { class ≢ End }
    requires line { cursor.old.line + length cursor.old.rest.now < 2 ^ 32 }
    ensures read { Gives (λ _. scan cursor.new) result (marked class (scan cursor.old)) }
    ensures fits { cursor.new.line + length cursor.new.rest.now ≤ cursor.old.line + length cursor.old.rest.now }
    ensures shorter { length cursor.new.rest.now ≤ length cursor.old.rest.now }
{
    let token = cursor.next();
    if token.is(class) {
        Ok(())
    } else {
        Err(misplaced(token))
    }
}

/// The name that a token is, where it isn't too long.
#[tactic(auto, unfolding(crate::specs::Inner::Reading::short_name))]
fn short_name(token: Token<'_>) -> Result<&[u8], ReadError>
    ensures read { Gives (λ n. n.now) result (short_name (lexeme token.entry)) }
    ensures inner { IsOk result → is_end (lexeme token.entry).word ≡ false }
{
    let Some(name) = token.name() else {
        return Err(misplaced(token));
    };
    if name.len() > MAX_NAME {
        return Err(fault_at(token, FaultKind::Name));
    }
    Ok(name)
}

/// Takes the name of a net that is used.
#[tactic(auto, unfolding(crate::specs::Inner::Reading::used_name, crate::specs::Inner::Reading::short_name))]
fn used_name<'a>(cursor: &mut Cursor<'a>) -> Result<Use<'a>, ReadError>
    requires { cursor.old.line + length cursor.old.rest.now < 2 ^ 32 }
    ensures read { Gives (λ u. (mention u, scan cursor.new)) result (used_name (scan cursor.old)) }
    ensures fits { cursor.new.line + length cursor.new.rest.now ≤ cursor.old.line + length cursor.old.rest.now }
    ensures shorter { length cursor.new.rest.now ≤ length cursor.old.rest.now }
{
    let token = cursor.next();
    let name = short_name(token)?;
    Ok(Use {
        name,
        line: token.line,
    })
}

/// Adds a name, and says whether it is new.
pub(crate) fn insert_name(names: &mut IndexSet<Name>, name: &[u8]) -> Result<bool, ReadError>
    ensures new { IfOk result (λ new. new ≡ not (is_member name.now names.old.keys)) }
    ensures names { IfOk result (λ new.
        names.new.keys ≡ (if new then names.old.keys ++ name.now ∷ [] else names.old.keys)) }
    ensures err { IfErr result (λ e. e ≡ Memory) }
{
    let own = Name::new(*names.allocator(), name)?;
    Ok(names.insert(own)?)
}

fn net_count(names: &IndexSet<Name>) -> usize
    ensures { result ≡ length names.now.keys }
{
    names.len()
}

/// Gives a driven net the next number. A fault stands at the token `place`.
#[tactic(auto, unfolding(crate::specs::Inner::Reading::with_net))]
fn add_net<'a>(names: &mut IndexSet<Name>, name: &'a [u8], place: Token) -> Result<(), ReadError>
    ensures read { Gives (λ _. names.new.keys) result
        (with_net names.old.keys name.now (lexeme place.entry)) }
    ensures names { OnOk result (names.new.keys ≡ names.old.keys ++ name.now ∷ []) }
{
    let new = insert_name(names, name)?;
    if !new {
        return Err(fault_at(place, FaultKind::Driven));
    }
    if net_count(names) > MAX_NETS {
        return Err(fault_at(place, FaultKind::TooMany));
    }
    if name.len() > MAX_NAME {
        return Err(fault_at(place, FaultKind::Name));
    }
    Ok(())
}

/// Reads the operands behind the opening mark, up to the closing one.
fn read_operands<'a>(
    alloc: Global,
    cursor: &mut Cursor<'a>,
    cell: Cell,
) -> Result<Uses<'a>, ReadError>
    requires { cursor.old.line + length cursor.old.rest.now < 2 ^ 32 }
    ensures read { Gives (λ us. (mentions us.items, scan cursor.new)) result (operands_at cell (scan cursor.old)) }
    ensures fits { cursor.new.line + length cursor.new.rest.now ≤ cursor.old.line + length cursor.old.rest.now }
    ensures shorter { length cursor.new.rest.now ≤ length cursor.old.rest.now }
{
    let mut operands = Uses::new(alloc);
    loop {
        let used = used_name(cursor)?;
        operands.push(used)?;
        let after = cursor.next();
        if after.is(Class::Comma) {
            if takes_one(cell) {
                return Err(fault_at(after, FaultKind::Operands));
            }
        } else if after.is(Class::Close) {
            return Ok(operands);
        } else {
            return Err(misplaced(after));
        }
    }
}

/// Reads a driver statement behind its `=`.
#[tactic(auto, unfolding(crate::specs::Inner::Reading::driver_at))]
fn read_driver<'a>(
    alloc: Global,
    cursor: &mut Cursor<'a>,
    names: &mut IndexSet<Name>,
    name: &'a [u8],
    equals: Token,
) -> Result<Item<'a>, ReadError>
    requires { cursor.old.line + length cursor.old.rest.now < 2 ^ 32 }
    ensures read { Gives (λ i. (statement i, scan cursor.new)) result
        (driver_at names.old.keys name.now (lexeme equals.entry) (scan cursor.old)) }
    ensures names { IfOk result (λ i. names.new.keys ≡ names.old.keys ++ driven_by (statement i)) }
    ensures fits { cursor.new.line + length cursor.new.rest.now ≤ cursor.old.line + length cursor.old.rest.now }
    ensures shorter { length cursor.new.rest.now ≤ length cursor.old.rest.now }
{
    add_net(names, name, equals)?;
    let token = cursor.next();
    let Some(kind) = token.name() else {
        return Err(misplaced(token));
    };
    let Some(cell) = cell_named(kind) else {
        return Err(fault_at(token, FaultKind::Kind));
    };
    take_mark(cursor, Class::Open)?;
    let operands = read_operands(alloc, cursor, cell)?;
    Ok(Item::Drive(name, cell, operands))
}

/// Reads an input statement behind its opening mark.
#[tactic(auto, unfolding(crate::specs::Inner::Reading::input_at))]
fn read_input<'a>(
    cursor: &mut Cursor<'a>,
    names: &mut IndexSet<Name>,
) -> Result<Item<'a>, ReadError>
    requires { cursor.old.line + length cursor.old.rest.now < 2 ^ 32 }
    ensures read { Gives (λ i. (statement i, scan cursor.new)) result
        (input_at names.old.keys (scan cursor.old)) }
    ensures names { IfOk result (λ i. names.new.keys ≡ names.old.keys ++ driven_by (statement i)) }
    ensures fits { cursor.new.line + length cursor.new.rest.now ≤ cursor.old.line + length cursor.old.rest.now }
    ensures shorter { length cursor.new.rest.now ≤ length cursor.old.rest.now }
{
    let token = cursor.next();
    let Some(name) = token.name() else {
        return Err(misplaced(token));
    };
    add_net(names, name, token)?;
    take_mark(cursor, Class::Close)?;
    Ok(Item::Input(name))
}

/// Reads an output statement behind its opening mark.
#[tactic(auto, unfolding(crate::specs::Inner::Reading::output_at))]
fn read_output<'a>(cursor: &mut Cursor<'a>) -> Result<Item<'a>, ReadError>
    requires { cursor.old.line + length cursor.old.rest.now < 2 ^ 32 }
    ensures read { Gives (λ i. (statement i, scan cursor.new)) result (output_at (scan cursor.old)) }
    ensures names { IfOk result (λ i. driven_by (statement i) ≡ []) }
    ensures fits { cursor.new.line + length cursor.new.rest.now ≤ cursor.old.line + length cursor.old.rest.now }
    ensures shorter { length cursor.new.rest.now ≤ length cursor.old.rest.now }
{
    let name = used_name(cursor)?;
    take_mark(cursor, Class::Close)?;
    Ok(Item::Output(name))
}

/// Reads a statement with this keyword behind its opening mark.
#[tactic(auto, unfolding(crate::specs::Inner::Reading::keyword_at))]
fn read_keyword<'a>(
    cursor: &mut Cursor<'a>,
    names: &mut IndexSet<Name>,
    keyword: &[u8],
    place: Token,
) -> Result<Item<'a>, ReadError>
    requires { cursor.old.line + length cursor.old.rest.now < 2 ^ 32 }
    ensures read { Gives (λ i. (statement i, scan cursor.new)) result
        (keyword_at names.old.keys keyword.now (lexeme place.entry) (scan cursor.old)) }
    ensures names { IfOk result (λ i. names.new.keys ≡ names.old.keys ++ driven_by (statement i)) }
    ensures fits { cursor.new.line + length cursor.new.rest.now ≤ cursor.old.line + length cursor.old.rest.now }
    ensures shorter { length cursor.new.rest.now ≤ length cursor.old.rest.now }
{
    if is_word(keyword, b"INPUT") {
        read_input(cursor, names)
    } else if is_word(keyword, b"OUTPUT") {
        read_output(cursor)
    } else {
        Err(misplaced(place))
    }
}

/// Reads the statement that begins with the token `first`.
#[tactic(auto, unfolding(crate::specs::Inner::Reading::statement_at))]
fn read_statement<'a>(
    alloc: Global,
    cursor: &mut Cursor<'a>,
    names: &mut IndexSet<Name>,
    first: Token<'a>,
) -> Result<Item<'a>, ReadError>
    requires { cursor.old.line + length cursor.old.rest.now < 2 ^ 32 }
    ensures read { Gives (λ i. (statement i, scan cursor.new)) result
        (statement_at names.old.keys (lexeme first.entry ∷ behind (lexeme first.entry).word (scan cursor.old))) }
    ensures names { IfOk result (λ i. names.new.keys ≡ names.old.keys ++ driven_by (statement i)) }
    ensures fits { cursor.new.line + length cursor.new.rest.now ≤ cursor.old.line + length cursor.old.rest.now }
    ensures shorter { length cursor.new.rest.now ≤ length cursor.old.rest.now }
{
    let name = short_name(first)?;
    let second = cursor.next();
    if second.is(Class::Equals) {
        read_driver(alloc, cursor, names, name, second)
    } else if second.is(Class::Open) {
        read_keyword(cursor, names, name, second)
    } else {
        Err(misplaced(second))
    }
}

/// What the statements of a text say, with the names of the nets that they drive.
#[derive(Drop)]
pub struct Parsed<'a> {
    pub items: Vec<Item<'a>>,
    pub names: IndexSet<Name>,
}

// About how many nets a text has, each driven by a line of 20 bytes, which is a short one. It is a matter of room
// alone, and may be wrong: a set of names that has to grow is made anew, while little is lost by too much room.
fn likely_nets(bytes: &[u8]) -> usize {
    (bytes.len() / 20).min(MAX_NETS)
}

// About how many statements a text has, at most; lines of 16 bytes are short ones. It is a matter of room alone
// too: what isn't used costs nothing, while a list that has to grow is copied.
fn likely_statements(bytes: &[u8]) -> usize {
    (bytes.len() / 16).min(2 * MAX_NETS)
}

/// Reads the statements of a text into an empty list, and the names of the nets that they drive into an empty set.
fn read_statements<'a>(
    alloc: Global,
    bytes: &'a [u8],
    items: &mut Vec<Item<'a>>,
    names: &mut IndexSet<Name>,
) -> Result<(), ReadError>
    requires few { length bytes.now ≤ MAX_TEXT }
    requires no_items { items.old.items ≡ [] }
    requires no_names { names.old.keys ≡ [] }
    ensures read { Stops (λ _. map statement items.new.items) result (tokens_of (snippets_of bytes.now)) }
    ensures names { OnOk result (names.new.keys ≡ driven (map statement items.new.items)) }
{
    let mut cursor = Cursor::new(bytes);
    loop {
        let first = cursor.next();
        if first.is(Class::End) {
            return Ok(());
        }
        let item = read_statement(alloc, &mut cursor, names, first)?;
        items.push(item)?;
    }
}

/// Reads the statements of a text.
pub fn parse(alloc: Global, bytes: &[u8]) -> Result<Parsed<'_>, ReadError>
    requires { length bytes.now ≤ MAX_TEXT }
    ensures read { Stops (λ p. map statement p.items.items) result (tokens_of (snippets_of bytes.now)) }
    ensures names { IfOk result (λ p. p.names.keys ≡ driven (map statement p.items.items)) }
{
    let mut items = Vec::with_capacity(alloc, likely_statements(bytes))?;
    let mut names = IndexSet::with_capacity(alloc, likely_nets(bytes))?;
    match read_statements(alloc, bytes, &mut items, &mut names) {
        Ok(()) => Ok(Parsed { items, names }),
        Err(error) => {
            drop((items, names));
            Err(error)
        }
    }
}
