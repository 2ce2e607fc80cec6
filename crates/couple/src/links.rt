// What links two induced representations.
use cyclo24::Z24;
use lin_alg::Matrix;

/// What links two representations D_left and D_right of one quotient.
#[derive(Drop)]
pub enum Link {
    /// Zero is the only matrix X with D_left(q) X = X D_right(q) for all q.
    Nothing,
    /// Such a matrix that isn't zero, and the dimension of the span of its rows.
    Found { matrix: Matrix<Z24>, rank: u32 },
}
