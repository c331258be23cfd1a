//! Tokens as text: a line each, with its place, its kind and how it is spelled.

use crate::text::{Text, put, put_name, put_place};
use cl_token::Token;
use wg_num::Place;

fn put_token(text: &mut Text, token: &Token, place: Place) {
    put_place(text, place);
    text.push_str(" ");
    put(text, token.kind);
    text.push_str(" ");
    put_name(text, &token.word);
    text.push_str("\n");
}

/// Puts tokens behind their macros, each at its place. One that comes from a macro has the place of the macro's name.
pub(crate) fn put_tokens(text: &mut Text, tokens: &[Token], places: &[Place]) {
    for (number, token) in tokens.iter().enumerate() {
        if let Some(place) = places.get(number) {
            put_token(text, token, *place);
        }
    }
}
