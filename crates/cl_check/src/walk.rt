//! The walk through a tree: parts in order, then the node itself.

ghost use Rattle.std.specs.Prelude.{◌≡◌, ◌++◌, ◌∷◌, [], suc, nat_eq, if◌then◌else◌, Some};
ghost use Rattle.std.specs.Prelude.{List, IfOk, OnOk, map, length};
ghost use Rattle.cl_meaning.specs.declared.kind.Role.TheVariants as roles;
ghost use Rattle.wg_num.specs.declared.types.Place.{Place as PlaceOf};
ghost use Rattle.cl_tree.specs.Syntax.{view, views, first_of, last_of};
ghost use Rattle.cl_meaning.specs.Faults as faults;
ghost use Rattle.cl_meaning.specs.Visible as visible;
ghost use Rattle.cl_scope.specs.View.{env_of};
ghost use Rattle.cl_fragment.specs.View.{piece_of};
ghost use Rattle.cl_faults.specs.View.{asked_of};
ghost use Rattle.cl_meaning.specs.Environment.{Env};
ghost use Rattle.cl_meaning.specs.Declarations.{form_of};
ghost use Rattle.cl_scope.specs.Walk.{inner_of, inner_at};
ghost use Rattle.cl_faults.specs.View.{looked_in};
ghost use Rattle.cl_check.specs.Walk.{Walked, Faulted, IfFault, IfReported, PartsWalked, PartsFaulted, IsJudged};
ghost use Rattle.cl_check.specs.Walk.{IsBuilt, IsAtFault, kind_at};
ghost use Rattle.cl_faults.specs.Least.{IsLeast};

use crate::error::CheckError;
use cl_faults::{Asked, Looked, fault_at, kind_of};
use cl_fragment::Piece;
use cl_fragment::make::{Node, make};
use cl_meaning::{Fault, Kind, Role};
use cl_scope::{Environment, Inner, enter, later, leave, restore};
use cl_tree::{Form, Tree};
use std::alloc::Global;
use wg_num::{Memory, Place, push};

/// What a walk goes by: what nodes are judged by, and the places of the tokens.
#[derive(Clone, Copy)]
pub(crate) struct Walk<'a> {
    pub(crate) alloc: Global,
    pub(crate) asked: &'a Asked,
    pub(crate) places: &'a [Place],
}

/// The place of a part of a node; `last` is the last token of the part before, if there is one (C99, section 6.8).
pub(crate) fn role_of(form: Form, last: Option<u32>, part: &Tree) -> Role
    ensures { result ≡ visible.role_of form last (view part.now) }
{
    match form {
        Form::SimpleNode => Role::Whole,
        Form::IfNode | Form::WhileNode | Form::SwitchNode => match last {
            None => Role::Tested,
            Some(_) => Role::Other,
        },
        Form::DoNode => match last {
            None => Role::Other,
            Some(_) => Role::Tested,
        },
        Form::ForNode => match last {
            None => Role::Other,
            Some(last) => next_role(last, part.first),
        },
        _ => Role::Other,
    }
}

/// The test of a `for` stands directly behind its first part.
fn next_role(last: u32, first: u32) -> Role
    ensures { result ≡ (if nat_eq first (suc last) then roles.Tested else roles.Other) }
{
    if first > last && first - last == 1 {
        Role::Tested
    } else {
        Role::Other
    }
}

/// The token at which a fault is reported; `end` is the number of tokens.
fn token_of(end: u32, fault: Fault, first: u32) -> u32
    ensures { result ≡ faults.token_of end fault first }
{
    match fault {
        Fault::NoSuchKernel => end,
        _ => first,
    }
}

/// What the parts of a node stand for, with the kind of each; `last` is the last token of the last of them.
#[derive(Drop)]
pub(crate) struct Parts {
    pieces: Vec<Piece>,
    kinds: Vec<Option<Kind>>,
    last: Option<u32>,
}

/// One part more.
fn add_part(parts: &mut Parts, last: u32, piece: Piece) -> Result<(), Memory>
    ensures pieces { OnOk result (map piece_of parts.new.pieces.items ≡ map piece_of parts.old.pieces.items ++
        piece_of piece ∷ []) }
    ensures kinds { OnOk result (parts.new.kinds.items ≡ parts.old.kinds.items ++ piece.kind ∷ []) }
    ensures last { OnOk result (parts.new.last ≡ Some last) }
{
    parts.last = Some(last);
    push(&mut parts.kinds, piece.kind)?;
    push(&mut parts.pieces, piece)
}

/// Goes behind a part.
fn go_behind(
    alloc: Global,
    environment: &mut Environment,
    form: Form,
    part: &Tree,
    parts: &mut Parts,
    piece: Piece,
) -> Result<(), Memory>
    ensures environment { OnOk result ((places : List PlaceOf) →
        env_of places environment.new ≡ visible.later (env_of places environment.old) form
        (visible.is_front parts.old.last) (view part.now) piece.kind) }
    ensures pieces { OnOk result (map piece_of parts.new.pieces.items ≡ map piece_of parts.old.pieces.items ++
        piece_of piece ∷ []) }
    ensures kinds { OnOk result (parts.new.kinds.items ≡ parts.old.kinds.items ++ piece.kind ∷ []) }
    ensures last { OnOk result (parts.new.last ≡ Some (last_of (view part.now))) }
{
    later(
        alloc,
        environment,
        form,
        parts.last.is_none(),
        part,
        piece.kind,
    )?;
    add_part(parts, part.last, piece)
}

/// The fault and the kind of a node behind its parts.
#[derive(Clone, Copy)]
struct Judgement {
    fault: Option<Fault>,
    kind: Option<Kind>,
}

fn look(
    alloc: Global,
    asked: &Asked,
    environment: &Environment,
    role: Role,
    tree: &Tree,
    kinds: &[Option<Kind>],
) -> Result<Judgement, Memory>
    ensures fault { IfOk result (λ j. (places : List PlaceOf) →
        IsLeast (asked_of asked.now) (looked_in (env_of places environment.now) role (view tree.now) kinds.now)
        j.fault) }
    ensures kind { IfOk result (λ j. (places : List PlaceOf) →
        j.kind ≡ kind_at (looked_in (env_of places environment.now) role (view tree.now) kinds.now)) }
{
    let node = Looked {
        environment,
        role,
        tree,
        kinds,
    };
    let fault = fault_at(alloc, asked, node)?;
    let kind = kind_of(node);
    Ok(Judgement { fault, kind })
}

/// What a node stands for, and what it leaves.
fn build(
    walk: Walk,
    environment: &mut Environment,
    sites: &mut Vec<Place>,
    tree: &Tree,
    inner: Inner,
    parts: Parts,
    kind: Option<Kind>,
) -> Result<Piece, Memory>
    ensures { IfOk result (λ p. (end : Env) → inner_of inner ≡ inner_at (form_of (view tree.now)) end →
        IsBuilt (env_of walk.entry.places.now environment.old) end sites.old.items (view tree.now)
        (map piece_of parts.pieces.items) parts.kinds.items kind (env_of walk.entry.places.now environment.new)
        sites.new.items (piece_of p)) }
{
    let pieces = parts.pieces;
    let kinds = parts.kinds;
    let node = Node {
        environment,
        tree,
        places: walk.places,
    };
    let what = make(walk.alloc, node, inner.body, inner.sizes, sites, pieces)?;
    leave(
        walk.alloc,
        environment,
        inner.labels,
        tree,
        kinds.as_slice(),
        walk.places,
    )?;
    Ok(Piece { kind, what })
}

/// A fault with the token at which it is reported.
fn fault_of(places: &[Place], fault: Fault, first: u32) -> CheckError
    ensures { IfReported result (λ k token. (k ≡ fault) ×
        (token ≡ faults.token_of (length places.now) fault first)) }
{
    match u32::try_from(places.len()) {
        Err(_) => CheckError::Memory,
        Ok(end) => CheckError::Fault {
            fault,
            token: token_of(end, fault, first),
        },
    }
}

/// A node whose parts are walked through: its own fault, or what it stands for.
fn judge(
    walk: Walk,
    environment: &mut Environment,
    sites: &mut Vec<Place>,
    role: Role,
    tree: &Tree,
    inner: Inner,
    parts: Parts,
) -> Result<Piece, CheckError>
    ensures made { IfOk result (λ p. (end : Env) → inner_of inner ≡ inner_at (form_of (view tree.now)) end →
        IsJudged (asked_of walk.entry.asked.now) (env_of walk.entry.places.now environment.old) end sites.old.items role
        (view tree.now) (map piece_of parts.pieces.items) parts.kinds.items
        (env_of walk.entry.places.now environment.new) sites.new.items (piece_of p)) }
    ensures faulted { IfFault result (λ k token.
        IsAtFault (asked_of walk.entry.asked.now) (length walk.entry.places.now)
        (looked_in (env_of walk.entry.places.now environment.old) role (view tree.now) parts.kinds.items)
        (first_of (view tree.now)) k token) }
{
    let kinds = parts.kinds.as_slice();
    let judgement = look(walk.alloc, walk.asked, environment, role, tree, kinds)?;
    match judgement.fault {
        Some(fault) => Err(fault_of(walk.places, fault, tree.first)),
        None => {
            let kind = judgement.kind;
            let piece = build(walk, environment, sites, tree, inner, parts, kind)?;
            Ok(piece)
        }
    }
}

/// Walks through the parts of a node, in order.
#[cycle(tree)]
fn check_parts(
    walk: Walk,
    environment: &mut Environment,
    sites: &mut Vec<Place>,
    form: Form,
    trees: &[Tree],
) -> Result<Parts, CheckError>
    ensures done { IfOk result (λ d. PartsWalked (asked_of walk.entry.asked.now) (length walk.entry.places.now) form
        (env_of walk.entry.places.now environment.old) sites.old.items (views trees.now)
        (env_of walk.entry.places.now environment.new)
        sites.new.items d.last (map piece_of d.pieces.items) d.kinds.items) }
    ensures faulted { IfFault result (PartsFaulted (asked_of walk.entry.asked.now) (length walk.entry.places.now) form
        (env_of walk.entry.places.now environment.old) (views trees.now)) }
{
    let mut parts = Parts {
        pieces: Vec::new(walk.alloc),
        kinds: Vec::new(walk.alloc),
        last: None,
    };
    for part in trees {
        let role = role_of(form, parts.last, part);
        match check_tree(walk, environment, sites, role, part) {
            Err(e) => return Err(e),
            Ok(piece) => go_behind(walk.alloc, environment, form, part, &mut parts, piece)?,
        }
    }
    Ok(parts)
}

/// Walks through a tree: what it stands for, or its first node at fault.
#[cycle(tree)]
pub(crate) fn check_tree(
    walk: Walk,
    environment: &mut Environment,
    sites: &mut Vec<Place>,
    role: Role,
    tree: &Tree,
) -> Result<Piece, CheckError>
    ensures walked { IfOk result (λ p. Walked (asked_of walk.entry.asked.now) (length walk.entry.places.now)
        (env_of walk.entry.places.now environment.old) sites.old.items role (view tree.now)
        (env_of walk.entry.places.now environment.new)
        sites.new.items (piece_of p)) }
    ensures faulted { IfFault result (Faulted (asked_of walk.entry.asked.now) (length walk.entry.places.now)
        (env_of walk.entry.places.now environment.old) role (view tree.now)) }
{
    let saved = enter(walk.alloc, environment, tree)?;
    match check_parts(walk, environment, sites, tree.form, tree.parts.as_slice()) {
        Err(e) => Err(e),
        Ok(parts) => {
            let inner = restore(environment, saved);
            judge(walk, environment, sites, role, tree, inner, parts)
        }
    }
}
