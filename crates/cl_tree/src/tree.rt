//! Syntax trees.

use wg_num::Word;

/// A production of the grammar that makes a node (OpenCL 1.2, chapter 6; C99, section 6.5 to 6.9).
#[derive(Clone, Copy, PartialEq, Eq, Debug)]
pub enum Form {
    UnitNode,
    FunctionNode,
    PrototypeNode,
    HeadNode,
    AttributeNode,
    ResultNode,
    ParamsNode,
    ParamNode,
    TypeNode,
    SpaceNode,
    StarNode,
    DeclareNode,
    DeclaratorNode,
    ListNode,
    BlockNode,
    SimpleNode,
    IfNode,
    WhileNode,
    DoNode,
    ForNode,
    SwitchNode,
    CaseNode,
    DefaultNode,
    BreakNode,
    ContinueNode,
    ReturnNode,
    ExprNode,
    AssignNode,
    CondNode,
    OrNode,
    AndNode,
    BorNode,
    BxorNode,
    BandNode,
    EqualNode,
    OrderNode,
    ShiftNode,
    SumNode,
    TermNode,
    CastNode,
    UnaryNode,
    PostfixNode,
    TruthNode,
    VariableNode,
    CallNode,
    ParenNode,
    /// A Number token.
    NumberNode,
}

/// A node of a syntax tree.
#[derive(Drop)]
pub struct Tree {
    /// The production that it is made by.
    pub form: Form,
    /// The spelling of those of its tokens that stand in none of its parts, in order, joined by one blank.
    pub word: Word,
    /// The number of its first token. A node without tokens has that of the token behind it.
    pub first: u32,
    /// The number of its last token. A node without tokens has that of the token behind it.
    pub last: u32,
    /// The nodes directly below it, in order.
    pub parts: Vec<Tree>,
}
