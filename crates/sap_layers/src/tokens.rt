//! Tokens of bytes.
use sap_read::ReadFault;
use sap_refusals::file_line;
use sap_rows::{Page, number, part, written};
use sap_text::{Kind, Token, token_bytes, tokens};

// The letter of its kind, its span and its line.
fn show_token(page: &mut Page, token: &Token) {
    let letter = match token.kind {
        Kind::Ident => "i",
        Kind::Number => "n",
        Kind::Quoted => "q",
        Kind::Symbol => "s",
    };
    page.numbered(letter, token.from);
    page.numbered("-", token.to);
    page.numbered("@", token.line);
}

// With blanks between them.
fn show_tokens(page: &mut Page, found: &[Token]) {
    let mut before = "";
    for token in found {
        page.word(before);
        show_token(page, token);
        before = " ";
    }
}

/// The bytes, the longest name, and the tokens or why there are none: of each token the letter of its kind, its span and its line.
pub fn tokens_row(page: &mut Page, row: &str) {
    let longest = number(page, part(row, 1));
    let bytes = written(page.alloc, part(row, 0));
    match tokens(page.alloc, bytes.as_bytes(), longest) {
        Ok(found) => {
            show_tokens(page, found.as_slice());
            drop(found);
        }
        Err(fault) => {
            let line = file_line(page.alloc, &ReadFault::Lex(fault));
            page.text(line, "file refused: ", "\n");
        }
    }
}

/// A text, and the bytes of each token, with a bar behind each.
pub fn pieces_row(page: &mut Page, row: &str) {
    let bytes = part(row, 0).as_bytes();
    let Ok(found) = tokens(page.alloc, bytes, 64) else {
        return page.fail();
    };
    for k in 0..found.len() {
        page.bytes(token_bytes(bytes, found.as_slice(), k));
        page.word("|");
    }
}

/// A number, and it in decimal.
pub fn numbers_row(page: &mut Page, row: &str) {
    let number = number(page, part(row, 0));
    page.numbered("", number);
}
