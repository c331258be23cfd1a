//! A declaration in a unit, and a block of two lines.

use cl_short_vec::{VectorError, VectorFault, VectorRefusal, mark_unit, refusal, scalarise};
use cl_tree::{Form, Tree};
use std::alloc::Global;
use std::test::Fail;
use wg_num::Word;

fn node(form: Form, word: Word, first: u32, last: u32, parts: Vec<Tree>) -> Tree {
    Tree {
        form,
        word,
        first,
        last,
        parts,
    }
}

/// A node without parts.
fn leaf(alloc: Global, form: Form, text: &str, token: u32) -> Option<Tree> {
    let word = Word::new(alloc, text.as_bytes()).ok()?;
    Some(node(form, word, token, token, Vec::new(alloc)))
}

/// A node with these parts.
fn whole(
    alloc: Global,
    form: Form,
    text: &str,
    first: u32,
    last: u32,
    parts: Vec<Tree>,
) -> Option<Tree> {
    let word = Word::new(alloc, text.as_bytes()).ok()?;
    Some(node(form, word, first, last, parts))
}

/// The unit `int4 t;`, with that type.
fn unit(alloc: Global, of: &str) -> Option<Tree> {
    let base = leaf(alloc, Form::TypeNode, of, 0)?;
    let declarator = leaf(alloc, Form::DeclaratorNode, "t", 1)?;
    let parts = vec![in alloc; base, declarator].ok()?;
    let line = whole(alloc, Form::DeclareNode, ";", 0, 2, parts)?;
    let items = vec![in alloc; line].ok()?;
    whole(alloc, Form::UnitNode, "", 0, 2, items)
}

/// The line `int4 t;` of a block.
fn declared(alloc: Global) -> Option<Tree> {
    let base = leaf(alloc, Form::TypeNode, "int4", 1)?;
    let declarator = leaf(alloc, Form::DeclaratorNode, "t", 2)?;
    let parts = vec![in alloc; base, declarator].ok()?;
    whole(alloc, Form::DeclareNode, ";", 1, 3, parts)
}

/// The block `{ int4 t; t.xyzw = t; }`, with that selection.
fn block(alloc: Global, selection: &str) -> Option<Tree> {
    let chosen = vec![in alloc; leaf(alloc, Form::VariableNode, "t", 4)?].ok()?;
    let target = whole(alloc, Form::PostfixNode, selection, 4, 6, chosen)?;
    let value = leaf(alloc, Form::VariableNode, "t", 8)?;
    let sides = vec![in alloc; target, value].ok()?;
    let set = whole(alloc, Form::AssignNode, "=", 4, 8, sides)?;
    let inner = vec![in alloc; set].ok()?;
    let line = whole(alloc, Form::SimpleNode, ";", 4, 9, inner)?;
    let lines = vec![in alloc; declared(alloc)?, line].ok()?;
    whole(alloc, Form::BlockNode, "{ }", 0, 10, lines)
}

fn told(alloc: Global, tree: Option<Tree>) -> Option<Option<VectorRefusal>> {
    let tree = tree?;
    refusal(alloc, &tree).ok()
}

fn at(fault: VectorFault, token: u32) -> Option<Option<VectorRefusal>> {
    Some(Some(VectorRefusal { fault, token }))
}

#[test]
fn a_vector_of_the_unit_is_refused(rt: HostRuntime) -> Result<(), Fail> {
    let alloc = rt.alloc();
    assert!(rt; told(alloc, unit(alloc, "int4")) == at(VectorFault::Misplaced, 1));
    assert!(rt; told(alloc, unit(alloc, "const ulong16")) == at(VectorFault::Misplaced, 1));
    assert!(rt; told(alloc, unit(alloc, "int")) == Some(None));
    assert!(rt; told(alloc, unit(alloc, "int3")) == Some(None));
    Ok(())
}

#[test]
fn a_target_names_each_component_once(rt: HostRuntime) -> Result<(), Fail> {
    let alloc = rt.alloc();
    for (selection, told_there) in [
        (". xyzw", Some(None)),
        (". s3210", Some(None)),
        (". xxyz", at(VectorFault::NoComponent, 4)),
        (". q", at(VectorFault::NoComponent, 4)),
        (". even", at(VectorFault::TypesDiffer, 4)),
        (". w", at(VectorFault::Misplaced, 8)),
    ] {
        assert!(rt;
            told(alloc, block(alloc, selection)) == told_there,
            "at {selection}"
        );
    }
    Ok(())
}

/// How many parts a tree has, and how many the first of them has.
fn sizes(tree: &Tree) -> (usize, usize) {
    match tree.parts.as_slice() {
        [] => (0, 0),
        [first, ..] => (tree.parts.len(), first.parts.len()),
    }
}

#[test]
fn a_block_without_vectors_has_a_line_for_each_variable_and_step(
    rt: HostRuntime,
) -> Result<(), Fail> {
    let alloc = rt.alloc();
    let Some(tree) = block(alloc, ". wzyx") else {
        return Ok(());
    };
    assert!(rt; mark_unit(alloc, &tree).is_ok());
    match scalarise(alloc, tree) {
        Ok(form) => assert!(rt; sizes(&form) == (2, 5)),
        Err(error) => assert!(rt; error == VectorError::Memory),
    }
    Ok(())
}
