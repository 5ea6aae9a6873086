// Why a script is not run over the bank of a shop.
use script::Unfit;

#[derive(Clone, Copy, PartialEq, Eq, Debug)]
pub enum ShopFault {
    // there is no memory for the bank or the board
    NoMemory,
    // the script is too long, or the room for its answers too short
    Unfit(Unfit),
}
