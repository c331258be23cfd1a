//! The words of the grammar.

ghost use Rattle.std.specs.Prelude.{◌≡◌, map};
ghost use Rattle.cl_tree.specs.Words.{is_among, control_word_of, declaration_word_of, space_word_of, base_word_of};
ghost use Rattle.cl_tree.specs.Words.{outside_word_of, vector_word_of, bracket_of, operator_of, assignment_of};

use crate::terminal::Terminal;

fn is_one_of(word: &[u8], words: &[&str]) -> bool
    ensures { result ≡ is_among word.now (map (λ w. w.now) words.now) }
{
    for text in words {
        if word == text.as_bytes() {
            return true;
        }
    }
    false
}

// The words of statements.
#[tactic(auto, unfolding(crate::specs::Words::control_word_of))]
pub(crate) fn control_word(word: &[u8]) -> Terminal
    ensures { result ≡ control_word_of word.now }
{
    if is_one_of(word, &["if"]) {
        return Terminal::If;
    }
    if is_one_of(word, &["else"]) {
        return Terminal::Else;
    }
    if is_one_of(word, &["while"]) {
        return Terminal::While;
    }
    if is_one_of(word, &["do"]) {
        return Terminal::Do;
    }
    if is_one_of(word, &["for"]) {
        return Terminal::For;
    }
    if is_one_of(word, &["switch"]) {
        return Terminal::Switch;
    }
    if is_one_of(word, &["case"]) {
        return Terminal::Case;
    }
    if is_one_of(word, &["default"]) {
        return Terminal::Default;
    }
    if is_one_of(word, &["break"]) {
        return Terminal::Break;
    }
    if is_one_of(word, &["continue"]) {
        return Terminal::Continue;
    }
    if is_one_of(word, &["return"]) {
        return Terminal::Return;
    }
    if is_one_of(word, &["sizeof"]) {
        return Terminal::Sizeof;
    }
    declaration_word(word)
}

// The words of functions and declarations.
#[tactic(auto, unfolding(crate::specs::Words::declaration_word_of))]
fn declaration_word(word: &[u8]) -> Terminal
    ensures { result ≡ declaration_word_of word.now }
{
    if is_one_of(word, &["true", "false"]) {
        return Terminal::Truth;
    }
    if is_one_of(word, &["__kernel", "kernel", "inline", "static"]) {
        return Terminal::HeadWord;
    }
    if is_one_of(word, &["__attribute__"]) {
        return Terminal::Attribute;
    }
    if is_one_of(word, &["reqd_work_group_size", "work_group_size_hint"]) {
        return Terminal::AttributeName;
    }
    if is_one_of(word, &["void"]) {
        return Terminal::Void;
    }
    if is_one_of(word, &["const", "volatile"]) {
        return Terminal::Qualifier;
    }
    if is_one_of(word, &["restrict", "__restrict"]) {
        return Terminal::Restrict;
    }
    space_word(word)
}

// The address spaces, and the words that stand nowhere in the grammar.
#[tactic(auto, unfolding(crate::specs::Words::space_word_of))]
fn space_word(word: &[u8]) -> Terminal
    ensures { result ≡ space_word_of word.now }
{
    if is_one_of(
        word,
        &[
            "__global",
            "global",
            "__local",
            "local",
            "__constant",
            "constant",
            "__private",
            "private",
        ],
    ) {
        return Terminal::Space;
    }
    if is_one_of(word, &["struct", "union", "enum", "typedef", "goto"]) {
        return Terminal::Other;
    }
    base_word(word)
}

// The words of the base types.
#[tactic(auto, unfolding(crate::specs::Words::base_word_of))]
fn base_word(word: &[u8]) -> Terminal
    ensures { result ≡ base_word_of word.now }
{
    if is_one_of(word, &["signed", "unsigned"]) {
        return Terminal::Sign;
    }
    if is_one_of(word, &["char"]) {
        return Terminal::Char;
    }
    if is_one_of(word, &["int"]) {
        return Terminal::Int;
    }
    if is_one_of(word, &["short", "long"]) {
        return Terminal::Length;
    }
    if is_one_of(
        word,
        &["bool", "uchar", "ushort", "uint", "ulong", "size_t"],
    ) {
        return Terminal::TypeWord;
    }
    outside_word(word)
}

// The names of types that are outside the profile.
#[tactic(auto, unfolding(crate::specs::Words::outside_word_of))]
fn outside_word(word: &[u8]) -> Terminal
    ensures { result ≡ outside_word_of word.now }
{
    if is_one_of(
        word,
        &[
            "float",
            "double",
            "half",
            "ptrdiff_t",
            "intptr_t",
            "uintptr_t",
            "event_t",
            "sampler_t",
            "image1d_t",
            "image1d_buffer_t",
            "image1d_array_t",
            "image2d_t",
            "image2d_array_t",
            "image3d_t",
        ],
    ) {
        return Terminal::TypeWord;
    }
    vector_word(word)
}

// The names of the vector types: a type and its number of components.
#[tactic(auto, unfolding(crate::specs::Words::vector_word_of))]
fn vector_word(word: &[u8]) -> Terminal
    ensures { result ≡ vector_word_of word.now }
{
    if is_one_of(
        word,
        &[
            "char2", "char3", "char4", "char8", "char16", "uchar2", "uchar3", "uchar4", "uchar8",
            "uchar16", "short2", "short3", "short4", "short8", "short16", "ushort2", "ushort3",
            "ushort4", "ushort8", "ushort16",
        ],
    ) {
        return Terminal::TypeWord;
    }
    if is_one_of(
        word,
        &[
            "int2", "int3", "int4", "int8", "int16", "uint2", "uint3", "uint4", "uint8", "uint16",
            "long2", "long3", "long4", "long8", "long16", "ulong2", "ulong3", "ulong4", "ulong8",
            "ulong16",
        ],
    ) {
        return Terminal::TypeWord;
    }
    if is_one_of(
        word,
        &[
            "float2", "float3", "float4", "float8", "float16", "double2", "double3", "double4",
            "double8", "double16", "half2", "half3", "half4", "half8", "half16",
        ],
    ) {
        return Terminal::TypeWord;
    }
    Terminal::Name
}

// The brackets and the marks that separate.
#[tactic(auto, unfolding(crate::specs::Words::bracket_of))]
pub(crate) fn bracket(word: &[u8]) -> Terminal
    ensures { result ≡ bracket_of word.now }
{
    if is_one_of(word, &["{"]) {
        return Terminal::OpenBrace;
    }
    if is_one_of(word, &["}"]) {
        return Terminal::CloseBrace;
    }
    if is_one_of(word, &["("]) {
        return Terminal::Open;
    }
    if is_one_of(word, &[")"]) {
        return Terminal::Close;
    }
    if is_one_of(word, &["["]) {
        return Terminal::OpenBracket;
    }
    if is_one_of(word, &["]"]) {
        return Terminal::CloseBracket;
    }
    if is_one_of(word, &[";"]) {
        return Terminal::Semicolon;
    }
    if is_one_of(word, &[","]) {
        return Terminal::Comma;
    }
    if is_one_of(word, &[":"]) {
        return Terminal::Colon;
    }
    if is_one_of(word, &["?"]) {
        return Terminal::Question;
    }
    if is_one_of(word, &["."]) {
        return Terminal::Point;
    }
    operator(word)
}

// The operators.
#[tactic(auto, unfolding(crate::specs::Words::operator_of))]
fn operator(word: &[u8]) -> Terminal
    ensures { result ≡ operator_of word.now }
{
    if is_one_of(word, &["||"]) {
        return Terminal::OrOr;
    }
    if is_one_of(word, &["&&"]) {
        return Terminal::AndAnd;
    }
    if is_one_of(word, &["|"]) {
        return Terminal::Bar;
    }
    if is_one_of(word, &["^"]) {
        return Terminal::Caret;
    }
    if is_one_of(word, &["&"]) {
        return Terminal::Ampersand;
    }
    if is_one_of(word, &["==", "!="]) {
        return Terminal::Equality;
    }
    if is_one_of(word, &["<", ">", "<=", ">="]) {
        return Terminal::Relation;
    }
    if is_one_of(word, &["<<", ">>"]) {
        return Terminal::Shift;
    }
    if is_one_of(word, &["+", "-"]) {
        return Terminal::PlusMinus;
    }
    if is_one_of(word, &["*"]) {
        return Terminal::Star;
    }
    if is_one_of(word, &["/", "%"]) {
        return Terminal::Slash;
    }
    if is_one_of(word, &["~", "!"]) {
        return Terminal::Tilde;
    }
    if is_one_of(word, &["++", "--"]) {
        return Terminal::Step;
    }
    assignment(word)
}

// The assignments.
#[tactic(auto, unfolding(crate::specs::Words::assignment_of))]
fn assignment(word: &[u8]) -> Terminal
    ensures { result ≡ assignment_of word.now }
{
    if is_one_of(word, &["="]) {
        return Terminal::Equals;
    }
    if is_one_of(
        word,
        &["+=", "-=", "*=", "/=", "%=", "<<=", ">>=", "&=", "|=", "^="],
    ) {
        return Terminal::Compound;
    }
    Terminal::Other
}
