// The transactions that were given, numbered from 1: at most 512.
use crate::given::Given;
use crate::transaction::Transaction;

mod methods;

pub const TRANSACTIONS: usize = 512;

#[derive(Drop)]
pub struct Transactions {
    given: Given<Transaction, TRANSACTIONS>,
}
