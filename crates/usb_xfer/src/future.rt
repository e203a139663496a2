//! Values that come when they are waited for.

ghost use Rattle.std.specs.Prelude.{◌≡◌, Ok, Err, MatchResult, IsOkAnd, IsErrAnd};
ghost use Rattle.std.specs.Result.{ForOk, ForErr};

/// A value that comes when it is waited for. What a wait gives is stated by the future's type, in
/// `gives`.
pub trait MaybeFuture {
    /// The type of the value.
    type Output;

    // Whether it may be waited for.
    ghost can_wait: { Self → Type 0 };

    // What a wait may give.
    ghost gives: { Self → Self.Output → Type 0 };

    /// Waits for the value, which is one that the future gives.
    fn wait(self) -> Self::Output
        requires can { can_wait self }
        ensures gives { gives self result };
}

/// Functions of the value of a future.
pub trait MapFuture: MaybeFuture + Sized {
    /// The future of what `f` answers for the value of this one. `f` is called once, by `wait`.
    fn map<U, F: FnOnce(Self::Output) -> U>(self, f: F) -> Map<Self, F>
        ensures map { result ≡ record { future = self; f = f } }
    {
        Map { future: self, f }
    }
}

impl<M: MaybeFuture> MapFuture for M {}

/// Functions of what is in the result that a future gives.
pub trait MapResult<T, E>: MaybeFuture<Output = Result<T, E>> + Sized {
    /// The future of this one's result, with what `f` answers for its value in an `Ok`. An `Err`
    /// stays, and `f` is not called.
    fn map_ok<U, F: FnOnce(T) -> U>(self, f: F) -> MapOk<Self, F>
        ensures map { result ≡ record { future = self; f = f } }
    {
        MapOk { future: self, f }
    }

    /// The future of this one's result, with what `f` answers for its error in an `Err`. An `Ok`
    /// stays, and `f` is not called.
    fn map_err<U, F: FnOnce(E) -> U>(self, f: F) -> MapErr<Self, F>
        ensures map { result ≡ record { future = self; f = f } }
    {
        MapErr { future: self, f }
    }
}

impl<T, E, M: MaybeFuture<Output = Result<T, E>>> MapResult<T, E> for M {}

/// A value that is there: a wait gives exactly it.
pub struct Ready<T>(pub T);

impl<T> MaybeFuture for Ready<T> {
    type Output = T;

    ghost can_wait = { λ r. Unit {0} };

    ghost gives = { λ r x. x ≡ r.0 };

    fn wait(self) -> T {
        let Ready(x) = self;
        x
    }
}

/// What `map` makes: a wait gives what the function answers for the future's value.
pub struct Map<M, F> {
    future: M,
    f: F,
}

impl<M: MaybeFuture, U, F: FnOnce(M::Output) -> U> MaybeFuture for Map<M, F> {
    type Output = U;

    ghost can_wait = { λ m. M.can_wait m.future × ((x : _) → M.gives m.future x → F.pre m.f x) };

    ghost gives = { λ m y. (x : _) × M.gives m.future x × F.post m.f x y };

    fn wait(self) -> U {
        let Map { future, f } = self;
        f(future.wait())
    }
}

/// What `map_ok` makes: a wait gives the future's error, or what the function answers for its
/// value.
pub struct MapOk<M, F> {
    future: M,
    f: F,
}

impl<T, E, U, M: MaybeFuture<Output = Result<T, E>>, F: FnOnce(T) -> U> MaybeFuture
    for MapOk<M, F> {
    type Output = Result<U, E>;

    ghost can_wait = { λ m. M.can_wait m.future
        × ((x : _) → M.gives m.future x → ForOk x (F.pre m.f)) };

    ghost gives = { λ m y. (x : _) × M.gives m.future x
        × MatchResult x (λ v. IsOkAnd y (F.post m.f v)) (λ e. y ≡ Err e) };

    fn wait(self) -> Result<U, E> {
        let MapOk { future, f } = self;
        match future.wait() {
            Ok(x) => Ok(f(x)),
            Err(error) => Err(error),
        }
    }
}

/// What `map_err` makes: a wait gives the future's value, or what the function answers for its
/// error.
pub struct MapErr<M, F> {
    future: M,
    f: F,
}

impl<T, E, U, M: MaybeFuture<Output = Result<T, E>>, F: FnOnce(E) -> U> MaybeFuture
    for MapErr<M, F> {
    type Output = Result<T, U>;

    ghost can_wait = { λ m. M.can_wait m.future
        × ((x : _) → M.gives m.future x → ForErr x (F.pre m.f)) };

    ghost gives = { λ m y. (x : _) × M.gives m.future x
        × MatchResult x (λ v. y ≡ Ok v) (λ e. IsErrAnd y (F.post m.f e)) };

    fn wait(self) -> Result<T, U> {
        let MapErr { future, f } = self;
        match future.wait() {
            Ok(x) => Ok(x),
            Err(error) => Err(f(error)),
        }
    }
}
