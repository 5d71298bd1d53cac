//! Scripts with liveliness tokens, worked out from their bytes.

ghost use Rattle.zr_law_rows.specs.Tokens.{OtherTokenStays, TokenHearsNothing, TokenIsTold};

/// A client is told of a token of another router's client, and that it is there no more once that client's link has gone down.
pub fn token_is_told()
    ensures { TokenIsTold }
{}

/// While another client still has a token of that key, nobody is told that one is taken back.
pub fn other_token_stays()
    ensures { OtherTokenStays }
{}

/// A client that has declared a token under a key is sent no sample on it.
pub fn token_hears_nothing()
    ensures { TokenHearsNothing }
{}
