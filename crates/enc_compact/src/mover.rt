//! An order as what moves tokens.
ghost use Rattle.enc_compact.specs.Mover.{moved_low, moved_stays, moved_is_low};
ghost use Rattle.enc_schema.specs.Schema.{list_at};

use enc_base::Token;
use enc_row_order::Order;
use enc_token_map::Moves;

/// Moves tokens by an order.
#[derive(Drop)]
pub(crate) struct Mover<'a> {
    pub(crate) order: &'a Order,
}

impl Moves for Mover<'_> {
    ghost to = { λ m. moved_low (list_at m.order.now) };

    fn moved(&self, token: Token) -> Token {
        self.order.moved(token)
    }

    ghost stays = { λ m t. moved_stays (list_at m.order.now) t };

    ghost low = { λ m t. moved_is_low (list_at m.order.now) t };
}
