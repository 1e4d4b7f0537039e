//! Values read from tokens.
ghost use Rattle.std.specs.Prelude.{◌≡◌, ◌≢◌, ◌<◌, ◌≤◌, ◌++◌, ◌∷◌, [], ℕ, List, IfOk, IfSome, IfNone, IsTrue, true, false, All, length, take};
ghost use Rattle.std.specs.Fmt.{decimal};
ghost use Rattle.isle_syntax.specs.Tokens.Names.{is_ident};
ghost use Rattle.isle_syntax.specs.declared.lexer.Token.TheVariants.{Symbol};
ghost use Rattle.isle_rules.specs.Values.{ValueTree};
ghost use Rattle.isle_values.specs.Values.Nodes.{nodes_of};
ghost use Rattle.isle_values.specs.declared.values.Node.{Node};
ghost use Rattle.isle_values.specs.declared.values.Node.TheVariants.{Data};
ghost use Rattle.isle_values.specs.declared.values.reading.Open.{Open};
ghost use Rattle.isle_values.specs.Values.Tokens.{tokens_of, IsSpellable, SpellValue, HaveNoValue};
ghost use Rattle.isle_values.specs.Inside.Values.Reading.{counted, IsWithin, Level, IsReading, GoesOn};

use super::{Node, Value};
use isle_syntax::lexer::Token;
use isle_syntax::{Text, is_const_name, is_ident};
use std::alloc::{AllocError, Global};

/// Data whose fields are being read: the place of its node, and how many fields are read.
#[derive(Clone, Copy, Drop)]
pub(crate) struct Open {
    pub(crate) node: usize,
    pub(crate) fields: usize,
}

/// The number of an opaque value, of which these are the digits.
fn opaque_number(alloc: Global, digits: &str) -> Result<Option<u64>, AllocError>
    ensures some { IfOk result (λ r. IfSome r (λ n. decimal n ≡ digits.now)) }
    ensures none { IfOk result (λ r. IfNone r ((n : ℕ) → n < 18446744073709551616 → decimal n ≢ digits.now)) }
{
    let Ok(number) = digits.parse::<u64>() else {
        return Ok(None);
    };
    if number.to_string(alloc)?.as_str() == digits {
        Ok(Some(number))
    } else {
        Ok(None)
    }
}

/// The node of a value that a symbol spells.
fn symbol_node(alloc: Global, symbol: &str) -> Result<Option<Node>, AllocError>
    ensures some { IfOk result (λ r. IfSome r (λ node. (v : ValueTree) × IsSpellable v × (tokens_of v ≡ Symbol symbol.now ∷ [])
        × (nodes_of v ≡ node ∷ []))) }
    ensures none { IfOk result (λ r. IfNone r ((v : ValueTree) → IsSpellable v → tokens_of v ≡ Symbol symbol.now ∷ [] → ⊥)) }
{
    if symbol == "true" {
        return Ok(Some(Node::Bool(true)));
    }
    if symbol == "false" {
        return Ok(Some(Node::Bool(false)));
    }
    if let Some(name) = symbol.strip_prefix('$') {
        return if is_const_name(name) {
            Ok(Some(Node::Const(Text::from_str(alloc, name)?)))
        } else {
            Ok(None)
        };
    }
    if let Some(digits) = symbol.strip_prefix('v') {
        return match opaque_number(alloc, digits)? {
            Some(number) => Ok(Some(Node::Opaque(number))),
            None => Ok(None),
        };
    }
    Ok(None)
}

/// The node of a value that a token spells.
fn leaf_node(alloc: Global, token: &Token) -> Result<Option<Node>, AllocError>
    ensures some { IfOk result (λ r. IfSome r (λ node. (v : ValueTree) × IsSpellable v × (tokens_of v ≡ token.now ∷ []) × (nodes_of v ≡ node ∷ []))) }
    ensures none { IfOk result (λ r. IfNone r ((v : ValueTree) → IsSpellable v → tokens_of v ≡ token.now ∷ [] → ⊥)) }
{
    match token {
        Token::Int(n) => Ok(Some(Node::Int(*n))),
        Token::Big(n) => Ok(Some(Node::Big(*n))),
        Token::Symbol(symbol) => symbol_node(alloc, symbol.as_str()),
        Token::LParen | Token::RParen | Token::At => Ok(None),
    }
}

/// Counts a value as a field of the innermost data that is open, if any is.
fn count_field(opened: &mut Vec<Open>)
    requires { All (λ place. place.fields < usize.MAX) opened.old.items }
    ensures { opened.new.items ≡ counted opened.old.items }
{
    if let Some(innermost) = opened.last_mut() {
        innermost.fields += 1;
    }
}

/// Says in data's node how many fields it has, and how many nodes these have.
fn set_counts(node: &mut Node, fields: usize, below: usize)
    ensures { (name : List ℕ) (f b : ℕ) → node.old ≡ Data name f b → node.new ≡ Data name fields below }
{
    if let Node::Data(_name, field_count, node_count) = node {
        *field_count = fields;
        *node_count = below;
    }
}

/// Closes the innermost data that is open, which is then a field of the data around it. None may be open.
fn close_data(nodes: &mut Vec<Node>, opened: &mut Vec<Open>) -> bool
    requires { All (IsWithin (length nodes.old.items)) opened.old.items }
    ensures closed { (outer : List Open) (last : Open) (before after : List Node) (name : List ℕ) → opened.old.items ≡ outer ++ last ∷ []
        → nodes.old.items ≡ before ++ Data name 0 0 ∷ after → length before ≡ last.node
        → (result ≡ true) × (opened.new.items ≡ counted outer) × (nodes.new.items ≡ before ++ Data name last.fields (length after) ∷ after) }
    ensures none { opened.old.items ≡ [] → result ≡ false }
{
    let Some(last) = opened.pop() else {
        return false;
    };
    let below = nodes.len() - last.node - 1;
    set_counts(&mut nodes[last.node], last.fields, below);
    count_field(opened);
    true
}

/// Opens data behind its opening parenthesis, where the next token names it.
fn open_data(
    alloc: Global,
    token: &Token,
    nodes: &mut Vec<Node>,
    opened: &mut Vec<Open>,
) -> Result<bool, AllocError>
    ensures opened { IfOk result (λ named. named ≡ true → (name : List ℕ) × IsTrue (is_ident name) × (token.now ≡ Symbol name)
        × (nodes.new.items ≡ nodes.old.items ++ Data name 0 0 ∷ [])
        × (opened.new.items ≡ opened.old.items ++ record { node = length nodes.old.items; fields = 0 } ∷ [])) }
    ensures unnamed { IfOk result (λ named. named ≡ false → (name : List ℕ) → IsTrue (is_ident name) → token.now ≢ Symbol name) }
{
    let Token::Symbol(name) = token else {
        return Ok(false);
    };
    if !is_ident(name.as_str()) {
        return Ok(false);
    }
    opened.push(Open {
        node: nodes.len(),
        fields: 0,
    })?;
    nodes.push(Node::Data(name.clone()?, 0, 0))?;
    Ok(true)
}

/// Reads a value that is one token.
fn read_leaf(
    alloc: Global,
    token: &Token,
    nodes: &mut Vec<Node>,
    opened: &mut Vec<Open>,
) -> Result<bool, AllocError>
    requires { All (λ place. place.fields < usize.MAX) opened.old.items }
    ensures read { IfOk result (λ is_leaf. is_leaf ≡ true → (v : ValueTree) × IsSpellable v × (tokens_of v ≡ token.now ∷ [])
        × (nodes.new.items ≡ nodes.old.items ++ nodes_of v) × (opened.new.items ≡ counted opened.old.items)) }
    ensures none { IfOk result (λ is_leaf. is_leaf ≡ false → (v : ValueTree) → IsSpellable v → tokens_of v ≡ token.now ∷ [] → ⊥) }
{
    let Some(node) = leaf_node(alloc, token)? else {
        return Ok(false);
    };
    nodes.push(node)?;
    count_field(opened);
    Ok(true)
}

/// Reads the token at a place, and gives the place to go on at, where a value can still be read.
fn read_step(
    alloc: Global,
    tokens: &[Token],
    at: usize,
    nodes: &mut Vec<Node>,
    opened: &mut Vec<Open>,
) -> Result<Option<usize>, AllocError>
    requires reading { (levels : List Level) × IsReading tokens.now at levels nodes.old.items opened.old.items }
    requires within { at < length tokens.now }
    ensures some { IfOk result (λ r. IfSome r (λ next. (at < next) × (next ≤ length tokens.now)
        × GoesOn tokens.now next nodes.new.items opened.new.items)) }
    ensures none { IfOk result (λ r. IfNone r (HaveNoValue tokens.now)) }
{
    match &tokens[at] {
        Token::LParen => {
            let Some(name) = tokens.get(at + 1) else {
                return Ok(None);
            };
            let named = open_data(alloc, name, nodes, opened)?;
            Ok(if named { Some(at + 2) } else { None })
        }
        Token::RParen => {
            let closed = close_data(nodes, opened);
            Ok(if closed { Some(at + 1) } else { None })
        }
        token => {
            let is_leaf = read_leaf(alloc, token, nodes, opened)?;
            Ok(if is_leaf { Some(at + 1) } else { None })
        }
    }
}

/// The value at the front of tokens, and how many tokens it has.
pub fn read_front(alloc: Global, tokens: &[Token]) -> Result<Option<(Value, usize)>, AllocError>
    ensures some { IfOk result (λ r. IfSome r (λ p. (p.1 ≤ length tokens.now) × SpellValue (take p.1 tokens.now) p.0)) }
    ensures none { IfOk result (λ r. IfNone r (HaveNoValue tokens.now)) }
{
    // most values are one node
    let mut nodes = Vec::with_capacity(alloc, 1)?;
    let mut opened = Vec::new(alloc);
    let mut at = 0;
    while at < tokens.len() {
        let Some(next) = read_step(alloc, tokens, at, &mut nodes, &mut opened)? else {
            return Ok(None);
        };
        at = next;
        if opened.is_empty() {
            return Ok(Some((Value { nodes }, at)));
        }
    }
    Ok(None)
}
