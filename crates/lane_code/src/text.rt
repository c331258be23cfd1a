//! The text of a group program.

ghost use Rattle.std.specs.Prelude.{◌≡◌, ◌++◌, OnOk, codes, decimal};
ghost use Rattle.std.specs.List.{flat_map};
ghost use Rattle.lane_code.specs.Text.{type_name, unary_name, binary_name, function_name, query_name, root_name};
ghost use Rattle.lane_code.specs.Text.{root_number, label_name, bank_letter, operand_text, operands_text, step_text};

use crate::operand::{Label, Operand};
use crate::row::row_of;
use crate::step::{Bank, Step};
use cl_model::{Query, Root};
use itoa::Buffer;
use wg_num::{Bin, Fun, IntType, Memory, Un};

/// Puts a text behind what stands there.
pub(crate) fn put(out: &mut Vec<u8>, text: &[u8]) -> Result<(), Memory>
    ensures { OnOk result (out.new.items ≡ out.old.items ++ text.now) }
{
    match out.extend_from_slice(text) {
        Ok(()) => Ok(()),
        Err(_) => Err(Memory),
    }
}

/// Puts texts one behind the other.
pub(crate) fn put_pieces(out: &mut Vec<u8>, pieces: &[&[u8]]) -> Result<(), Memory>
    ensures { OnOk result (out.new.items ≡ out.old.items ++ flat_map (λ p. p.now) pieces.now) }
{
    for piece in pieces {
        put(out, piece)?;
    }
    Ok(())
}

fn name_of_type(t: IntType) -> &'static [u8]
    ensures { result.now ≡ type_name t }
{
    match t {
        IntType::Bool => b"Bool",
        IntType::Char => b"Char",
        IntType::Uchar => b"Uchar",
        IntType::Short => b"Short",
        IntType::Ushort => b"Ushort",
        IntType::Int => b"Int",
        IntType::Uint => b"Uint",
        IntType::Long => b"Long",
        IntType::Ulong => b"Ulong",
    }
}

fn name_of_unary(op: Un) -> &'static [u8]
    ensures { result.now ≡ unary_name op }
{
    match op {
        Un::Plus => b"Plus",
        Un::Minus => b"Minus",
        Un::Flip => b"Flip",
        Un::Not => b"Not",
    }
}

fn name_of_binary(op: Bin) -> &'static [u8]
    ensures { result.now ≡ binary_name op }
{
    match op {
        Bin::Add => b"Add",
        Bin::Sub => b"Sub",
        Bin::Mul => b"Mul",
        Bin::Div => b"Div",
        Bin::Rem => b"Rem",
        Bin::Shl => b"Shl",
        Bin::Shr => b"Shr",
        Bin::And => b"And",
        Bin::Or => b"Or",
        Bin::Xor => b"Xor",
        Bin::Eq => b"Eq",
        Bin::Ne => b"Ne",
        Bin::Lt => b"Lt",
        Bin::Le => b"Le",
        Bin::Gt => b"Gt",
        Bin::Ge => b"Ge",
    }
}

fn name_of_function(f: Fun) -> &'static [u8]
    ensures { result.now ≡ function_name f }
{
    match f {
        Fun::Abs => b"Abs",
        Fun::AbsDiff => b"AbsDiff",
        Fun::Min => b"Min",
        Fun::Max => b"Max",
        Fun::Clamp => b"Clamp",
        Fun::AddSat => b"AddSat",
        Fun::SubSat => b"SubSat",
        Fun::Hadd => b"Hadd",
        Fun::Rhadd => b"Rhadd",
        Fun::MulHi => b"MulHi",
        Fun::Rotate => b"Rotate",
        Fun::Clz => b"Clz",
        Fun::Popcount => b"Popcount",
    }
}

fn name_of_query(what: Query) -> &'static [u8]
    ensures { result.now ≡ query_name what }
{
    match what {
        Query::WorkDim => b"WorkDim",
        Query::GlobalId => b"GlobalId",
        Query::LocalId => b"LocalId",
        Query::GroupId => b"GroupId",
        Query::GlobalSize => b"GlobalSize",
        Query::LocalSize => b"LocalSize",
        Query::NumGroups => b"NumGroups",
        Query::GlobalOffset => b"GlobalOffset",
    }
}

fn name_of_root(root: Root) -> &'static [u8]
    ensures { result.now ≡ root_name root }
{
    match root {
        Root::Param(_) => b"Param ",
        Root::Constant(_) => b"Constant ",
        Root::Local(_) => b"Local ",
        Root::Private(_) => b"Private ",
    }
}

fn number_of_root(root: Root) -> u32
    ensures { result ≡ root_number root }
{
    match root {
        Root::Param(n) => n,
        Root::Constant(n) => n,
        Root::Local(n) => n,
        Root::Private(n) => n,
    }
}

fn letter_of(bank: Bank) -> &'static [u8]
    ensures { result.now ≡ bank_letter bank }
{
    match bank {
        Bank::Narrow => b"v",
        Bank::Wide => b"w",
        Bank::Mask => b"m",
        Bank::Scalar => b"s",
    }
}

fn name_of_label(label: Label) -> &'static [u8]
    ensures { result.now ≡ label_name label }
{
    match label {
        Label::To => b"to",
        Label::From => b"from",
        Label::A => b"a",
        Label::B => b"b",
        Label::C => b"c",
        Label::Index => b"index",
        Label::Dim => b"dim",
        Label::Mask => b"mask",
        Label::Of => b"of",
        Label::Was => b"was",
        Label::Kind => b"kind",
    }
}

/// Puts a number behind the name of what it is.
fn put_number(out: &mut Vec<u8>, name: &[u8], n: u32) -> Result<(), Memory>
    ensures { OnOk result (out.new.items ≡ out.old.items ++ (name.now ++ decimal n)) }
{
    let mut number = Buffer::new();
    put(out, name)?;
    put(out, number.format(n).as_bytes())
}

/// Puts a root behind the name of what it is.
fn put_root(out: &mut Vec<u8>, root: Root) -> Result<(), Memory>
    ensures { OnOk result (out.new.items ≡ out.old.items ++ (codes " root=" ++ (root_name root ++
        decimal (root_number root)))) }
{
    let mut number = Buffer::new();
    put_pieces(
        out,
        &[
            b" root=",
            name_of_root(root),
            number.format(number_of_root(root)).as_bytes(),
        ],
    )
}

/// Puts one operand: a blank, its name, `=` and its value.
fn put_operand(out: &mut Vec<u8>, operand: Operand) -> Result<(), Memory>
    ensures { OnOk result (out.new.items ≡ out.old.items ++ operand_text operand) }
{
    let mut number = Buffer::new();
    match operand {
        Operand::Register(label, _, register) => {
            put_pieces(
                out,
                &[
                    b" ",
                    name_of_label(label),
                    b"=",
                    letter_of(register.bank),
                    number.format(register.number).as_bytes(),
                ],
            )
        }
        Operand::Site(n) => put_number(out, b" site=", n),
        Operand::Array(n) => put_number(out, b" array=", n),
        Operand::Column(n) => put_number(out, b" column=", n),
        Operand::Slot(n) => put_number(out, b" slot=", n),
        Operand::Parameter(n) => put_number(out, b" number=", n),
        Operand::Ahead(n) => put_number(out, b" target=", n),
        Operand::Back(n) => put_number(out, b" target=", n),
        Operand::Type(label, t) => put_pieces(
            out,
            &[b" ", name_of_label(label), b"=", name_of_type(t)],
        ),
        Operand::Value(_, value) => put_pieces(out, &[b" value=", number.format(value).as_bytes()]),
        Operand::Unary(op) => put_pieces(out, &[b" op=", name_of_unary(op)]),
        Operand::Binary(op) => put_pieces(out, &[b" op=", name_of_binary(op)]),
        Operand::Function(f) => put_pieces(out, &[b" f=", name_of_function(f)]),
        Operand::Query(what) => put_pieces(out, &[b" what=", name_of_query(what)]),
        Operand::Read(root) => put_root(out, root),
        Operand::Written(root) => put_root(out, root),
    }
}

/// Puts a name and operands.
fn put_operands(out: &mut Vec<u8>, name: &[u8], operands: &[Operand]) -> Result<(), Memory>
    ensures { OnOk result (out.new.items ≡ out.old.items ++ operands_text name.now operands.now) }
{
    put(out, name)?;
    for operand in operands {
        put_operand(out, *operand)?;
    }
    Ok(())
}

/// Puts the text of a step.
pub(crate) fn put_step(out: &mut Vec<u8>, step: Step) -> Result<(), Memory>
    ensures { OnOk result (out.new.items ≡ out.old.items ++ step_text step) }
{
    let row = row_of(step);
    put_operands(out, row.name, row.list())
}
