//! Tests of the pools: worked rows, trees emptied in all orders, compared with a plain model, and heaps that run out.
//!
//! A row is a list of calls with the result that each must give, so that one list serves with ample memory and
//! with little.

mod call;
mod giving_back;
mod many;
mod model;
mod orders;
mod rows;
mod scarce;
mod serials;
mod tests;
