//! Tests of instances of functions: each line of a table is a text whose last item is a function without parameters, which is to come to
//! so many instances. The numbers are worked by hand.

mod answers;
mod counts;
