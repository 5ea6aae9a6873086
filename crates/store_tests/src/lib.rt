// One table of calls and answers for every kind of store, alone and inside a bank.
#![tactic(auto)]

#[cfg(test)]
mod calls;
#[cfg(test)]
mod table;
