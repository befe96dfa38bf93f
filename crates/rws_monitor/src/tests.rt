//! Worked rounds, and replies in the form in which MariaDB sends them. What they are to give is worked out by hand.

mod replies;
mod rounds;
